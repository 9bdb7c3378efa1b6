// Whether upper and lower case are the same, by the options of `cs`.
ghost use Rattle.std.specs.Prelude.{◌≡◌};
ghost use Rattle.cs_command.specs.LetterCase.{case_set, case_of};

use crate::named::Switch;
use crate::words::WordItem;

/// Whether a letter matches both of its cases.
#[derive(Clone, Copy, Drop)]
pub enum LetterCase {
    /// No (`-s`, and without an option).
    Exact,
    /// Yes (`-i`).
    Fold,
    /// Yes, if the pattern has no upper case (`-S`).
    Smart,
}

/// The last of `-i`, `-S` and `-s` holds.
pub fn case_of(items: &[WordItem]) -> LetterCase
    ensures { result ≡ case_of items.now }
{
    let mut case = LetterCase::Exact;
    let mut rest = items;
    'items: while let Some((item, behind)) = rest.split_first() {
        case = case_set(case, *item);
        rest = behind;
    }
    case
}

/// The case after one more item.
fn case_set(before: LetterCase, item: WordItem) -> LetterCase
    ensures { result ≡ case_set before item }
{
    match item {
        WordItem::Switch(Switch::Fold) => LetterCase::Fold,
        WordItem::Switch(Switch::Smart) => LetterCase::Smart,
        WordItem::Switch(Switch::Exact) => LetterCase::Exact,
        _ => before,
    }
}
