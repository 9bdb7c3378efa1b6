// Laws of the definitions. These functions do nothing.
ghost use Rattle.cs_storage.specs.Rights.{NobodyIsLetIn};
ghost use Rattle.cs_storage.specs.Schedules.{NoJobIsLost};

/// Whatever the order of their steps, runs that change FILE only while they hold FILE~ lose no job.
pub fn no_job_is_lost()
    ensures { NoJobIsLost }
{}

/// A file with the kept mode gives nobody a right that they did not have to the file that it
/// replaces.
pub fn nobody_is_let_in()
    ensures { NobodyIsLetIn }
{}
