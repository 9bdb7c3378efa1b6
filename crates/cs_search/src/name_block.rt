// Names that are tested at once, as the lines of a block.
ghost use Rattle.std.specs.Prelude.{◌≡◌, ◌<◌, ◌∷◌, ◌++◌, [], ℕ, List, Some, IfOk, IsUtf8, get_or, length};
ghost use Rattle.std.specs.List.{AllByRecursion};
ghost use Rattle.std.specs.Result.{IsOkAnd};
ghost use Rattle.cs_search.specs.Cited.{KeepsStore, Parts, ReadsNames, terminated_lines, AreWholeLines, IsBlockOf, PushesMatching, ReadsBlock};

use cs_index::{IndexFault, NameReader};
use cs_match::Matcher;
use cs_tree::{IoFault, Store};
use std::alloc::{AllocError, Global};

/// A block has room for names of this length.
const NAME_LEN: usize = 80;

/// The names with these ids, each with a newline after it.
pub(crate) fn read_block<S: Store>(
    reader: &mut NameReader,
    alloc: Global,
    store: &mut S,
    ids: &[u32],
) -> Result<Result<Vec<u8>, IndexFault>, IoFault>
    ensures whole { IfOk result (λ answer. IfOk answer (λ block. AreWholeLines block.items)) }
    ensures read { ReadsBlock (S.model store.old) reader.old reader.new ids.now result }
    ensures store { KeepsStore S.model S.size S.failed store.old store.new result }
{
    let mut block = Vec::with_capacity(alloc, ids.len().saturating_mul(NAME_LEN))?;
    'ids: for id in ids {
        if let Err(fault) = append_name(reader, alloc, store, *id, &mut block)? {
            return Ok(Err(fault));
        }
    }
    Ok(Ok(block))
}

/// Appends the name with this id, and a newline.
fn append_name<S: Store>(
    reader: &mut NameReader,
    alloc: Global,
    store: &mut S,
    id: u32,
    block: &mut Vec<u8>,
) -> Result<Result<(), IndexFault>, IoFault>
    ensures whole { IfOk result (λ answer. IfOk answer (λ _. AreWholeLines block.new.items)) }
    ensures read { (bytes : List ℕ) (parts : Parts) (names : List (List ℕ)) → S.model store.old ≡ Some bytes →
        ReadsNames bytes parts reader.old → IsBlockOf names block.old.items → id < length parts.names →
        IfOk result (λ answer. IsOkAnd answer (λ _. ReadsNames bytes parts reader.new
        × IsBlockOf (names ++ get_or parts.names id [] ∷ []) block.new.items)) }
    ensures store { KeepsStore S.model S.size S.failed store.old store.new result }
{
    if let Err(fault) = reader.read(alloc, store, id)? {
        return Ok(Err(fault));
    }
    match reader.name() {
        Ok(name) => {
            block.extend_from_slice(name.as_bytes())?;
            block.push(b'\n')?;
            Ok(Ok(()))
        }
        Err(fault) => Ok(Err(fault)),
    }
}

/// Pushes the matching lines of a block. Without lines that are UTF-8 the answer may be an error.
pub(crate) fn push_matching(
    alloc: Global,
    matcher: &mut Matcher<'_>,
    block: &[u8],
    names: &mut Vec<String>,
) -> Result<Result<(), IndexFault>, AllocError>
    requires { AreWholeLines block.now }
    ensures pushed { AllByRecursion IsUtf8 (terminated_lines block.now) →
        IfOk result (λ answer. IsOkAnd answer (λ _. PushesMatching
        matcher.old.tree (terminated_lines block.now) names.old.items names.new.items)) }
    ensures same { matcher.new.tree ≡ matcher.old.tree }
{
    let mut from = 0;
    'lines: while let Some(line) = matcher.next_match(block, from) {
        match std::str::from_utf8(&block[line.start..line.end]) {
            Ok(name) => names.push(String::from_str(alloc, name)?)?,
            Err(_) => return Ok(Err(IndexFault::BadNames)),
        }
        from = line.end + 1;
    }
    Ok(Ok(()))
}
