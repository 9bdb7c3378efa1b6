// Laws of the definitions.
ghost use Rattle.cs_args.specs.ArgSplit.{ArgsAreSplit};

/// The arguments are the options with their values, then possibly `--`, and then the operands. Each
/// option is at its index.
pub fn args_are_split()
    ensures { ArgsAreSplit }
{}
