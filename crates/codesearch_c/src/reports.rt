// Exports over a text: what cgrep prints for it, and whether an index takes it.
ghost use Rattle.std.specs.Prelude.{◌≡◌};
ghost use Rattle.codesearch_c.specs.Cited.{IsAnswered, style_of, IsReportCode, IsScanCode};

use crate::codes::{MEMORY, MISUSE, OK, reason_code};
use crate::slot::{Held, Slot};
use cs_args::Style;
use cs_tree::MemSource;
use cs_trigram::{Reason, Scan, ScanFault, Scanner};
use std::alloc::{AllocError, Global};

/// An input, and the options of cgrep.
#[derive(Drop)]
pub(crate) struct GrepInput<'a> {
    pub(crate) name: &'a [u8],
    pub(crate) text: &'a [u8],
    pub(crate) style: u32,
}

/// What cgrep prints for an input with this name and text.
#[unsafe(no_mangle)]
pub extern "C" fn cs_grep(
    alloc: Global,
    slot: &mut Slot,
    name: &[u8],
    text: &[u8],
    style: u32,
    out: &mut [u8],
    len: &mut usize,
) -> i32
    ensures { IsAnswered slot.old slot.new result ((out.new ≡ out.old) × (len.new ≡ len.old))
        (λ held. IsReportCode held.pattern name.now text.now style out.old out.new
        len.old len.new result) }
{
    let Some(mut held) = slot.take(alloc) else {
        return MISUSE;
    };
    let code = match &mut *held {
        Held::Pattern(pattern) => {
            pattern.report_code(alloc, &GrepInput { name, text, style }, out, len)
        }
        _ => MISUSE,
    };
    slot.fill(held);
    code
}

/// Whether an index takes the text: 0, the number of the reason to leave it out, or a code.
#[unsafe(no_mangle)]
pub extern "C" fn cs_text_scan(alloc: Global, text: &[u8]) -> i32
    ensures { IsScanCode text.now result }
{
    let Ok(mut scanner) = Scanner::new(alloc) else {
        return MEMORY;
    };
    let mut source = MemSource::new(text, usize::MAX, false);
    match scanner.gather(&mut source) {
        Ok(Scan::Text { .. }) => OK,
        Ok(Scan::Skip(reason)) => reason_code(reason),
        Err(_) => MEMORY,
    }
}

/// The options of cgrep: 1 for `-c`, 2 for `-l`, 4 for `-n` and 8 for `-h`.
pub(crate) fn style_of(flags: u32) -> Style
    ensures { result ≡ style_of flags }
{
    Style {
        count: flags % 2 == 1,
        list: flags / 2 % 2 == 1,
        number: flags / 4 % 2 == 1,
        bare: flags / 8 % 2 == 1,
    }
}
