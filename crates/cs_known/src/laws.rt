// Laws of the definitions. These functions do nothing.
ghost use Rattle.cs_known.specs.Unprinted.{SkippedPathsPrintNothing, SkippedPrintNothing};

use cs_lines::laws::lines_are_printed_if_marked;

/// A file that is skipped can be read, and prints nothing.
pub fn a_skipped_file_prints_nothing()
    ensures { SkippedPrintNothing }
{
    lines_are_printed_if_marked();
}

/// The same of the file at a path below the folder of the project.
pub fn a_skipped_path_prints_nothing()
    ensures { SkippedPathsPrintNothing }
{
    lines_are_printed_if_marked();
}
