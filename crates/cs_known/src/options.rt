// What a search prints of texts without a match, and of binary files.
ghost use Rattle.std.specs.Prelude.{◌≡◌};
ghost use Rattle.cs_known.specs.Skipped.{leaves_out, lists_others, prints_unmatched};

use crate::types::SkipOptions;
use cs_lines::{BinaryFiles, Mode, ShowOptions};

impl SkipOptions {
    pub fn new(options: &ShowOptions, binaries: BinaryFiles) -> SkipOptions
        ensures unmatched { result.prints_unmatched ≡ prints_unmatched options.now }
        ensures binary { result.leaves_out_binary ≡ leaves_out binaries }
    {
        SkipOptions {
            prints_unmatched: options.invert || lists_others(options.mode),
            leaves_out_binary: leaves_out(binaries),
        }
    }
}

fn lists_others(mode: Mode) -> bool
    ensures { result ≡ lists_others mode }
{
    matches!(mode, Mode::Others)
}

fn leaves_out(binaries: BinaryFiles) -> bool
    ensures { result ≡ leaves_out binaries }
{
    matches!(binaries, BinaryFiles::WithoutMatch)
}
