// Globs: what each element of a path has to match. After a mismatch only the last `*`, or the last
// `**`, takes more, so each token meets each byte at most once. A `*` before a literal byte takes
// all bytes up to the next one that is that byte.
ghost use Rattle.std.specs.Prelude.{◌≡◌, ◌+◌, ◌≤◌, ◌∷◌, false, length};
ghost use Rattle.cs_tree.specs.CountsAtMost.{CountsAtMost};
ghost use Rattle.cs_listing.specs.MatchWork.{token_work, tokens_work, name_work, pair_work, path_work};
ghost use Rattle.cs_listing.specs.Globs.{is_in_ranges as is_in_ranges', accepts_byte, matches_name as matches_name', matches_path as matches_path', star, folders, is_nothing as is_nothing', can_match_name as can_match_name', can_match_element as can_match_element', can_match as can_match'};
ghost use Rattle.cs_listing.specs.Models.{token_of, tokens_of, element_of, glob_of, names};
ghost use Rattle.cs_listing.specs.Matching.{NameStepSays, NameStepTakes, PathStepSays};

use cs_tree::Steps;
use memchr::memchr;
use std::marker::Model;

/// What a part of a name has to match.
#[derive(Drop)]
pub(crate) enum Token {
    Byte(u8),
    /// `?`: any byte.
    Any,
    /// `[..]`: a byte in one of the ranges, or if it is negated, in none.
    Class {
        negated: bool,
        ranges: Vec<(u8, u8)>,
    },
    /// `*`: any bytes.
    Star,
}

/// What a part of a path has to match.
#[derive(Drop)]
pub(crate) enum Element {
    /// `**`: any number of folders, also none.
    Folders,
    One(Vec<Token>),
}

impl Token {
    /// Counts the steps of the token at one byte.
    fn count(&self, steps: &mut Steps)
        ensures { steps.new.count ≡ steps.old.count + token_work (token_of self.now) }
    {
        steps.add(1);
        if let Token::Class { ranges, .. } = self {
            steps.add(ranges.len());
        }
    }

    /// Whether a token other than `*` matches the byte.
    fn accepts(&self, byte: u8) -> bool
        ensures { result ≡ accepts_byte (token_of self.now) byte }
    {
        match self {
            Token::Byte(own) => *own == byte,
            Token::Any => true,
            Token::Class { negated, ranges } => is_in_ranges(ranges, byte) != *negated,
            Token::Star => false,
        }
    }
}

/// Whether a token is a class without a byte.
fn is_nothing(token: &Token) -> bool
    ensures { result ≡ is_nothing' (token_of token.now) }
{
    match token {
        Token::Class { negated, ranges } => !*negated && ranges.is_empty(),
        _ => false,
    }
}

/// Whether the tokens can match a name.
fn can_match_name(tokens: &[Token]) -> bool
    ensures { result ≡ can_match_name' (tokens_of tokens.now) }
{
    !tokens.is_empty() && !tokens.iter().any(is_nothing)
}

fn can_match_element(element: &Element) -> bool
    ensures { result ≡ can_match_element' (element_of element.now) }
{
    match element {
        Element::Folders => true,
        Element::One(tokens) => can_match_name(tokens),
    }
}

/// Whether a glob can match a path: no element is empty, and none has a class without a byte.
pub(crate) fn can_match(glob: &[Element]) -> bool
    ensures { result ≡ can_match' (glob_of glob.now) }
{
    glob.iter().all(can_match_element)
}

fn is_in_ranges(ranges: &[(u8, u8)], byte: u8) -> bool
    ensures { result ≡ is_in_ranges' ranges.now byte }
{
    ranges
        .iter()
        .any(|range| range.0 <= byte && byte <= range.1)
}

/// What the first token and the first byte of a name say, and what is left after them.
enum NameStep<'t, 'n> {
    Star(&'t [Token]),
    Byte(&'t [Token], &'n [u8]),
    End,
    Mismatch,
}

fn name_step<'t, 'n>(tokens: &'t [Token], name: &'n [u8], steps: &mut Steps) -> NameStep<'t, 'n>
    ensures says { NameStepSays tokens.now name.now result }
    ensures takes { NameStepTakes tokens.now result steps.old steps.new }
{
    let Some((token, later)) = tokens.split_first() else {
        steps.add(1);
        return if name.is_empty() {
            NameStep::End
        } else {
            NameStep::Mismatch
        };
    };
    token.count(steps);
    if matches!(token, Token::Star) {
        return NameStep::Star(later);
    }
    match name.split_first() {
        Some((byte, rest)) if token.accepts(*byte) => NameStep::Byte(later, rest),
        _ => NameStep::Mismatch,
    }
}

/// Whether the tokens after the last star match the end of a name. If not, the tokens match no such
/// name.
fn ends_match(tokens: &[Token], name: &[u8], steps: &mut Steps) -> bool
    ensures ends { result ≡ false → matches_name' (tokens_of tokens.now) name.now ≡ false }
    ensures work { CountsAtMost (tokens_work (tokens_of tokens.now)) steps.old steps.new }
{
    let mut left = tokens;
    let mut rest = name;
    'tokens: while let Some((token, before)) = left.split_last() {
        token.count(steps);
        if let Token::Star = token {
            return true;
        }
        let Some((byte, start)) = rest.split_last() else {
            return false;
        };
        if !token.accepts(*byte) {
            return false;
        }
        left = before;
        rest = start;
    }
    rest.is_empty()
}

/// Whether the tokens match the whole name. Most names end otherwise, so the end is compared first.
fn matches_last(tokens: &[Token], name: &[u8], steps: &mut Steps) -> bool
    ensures matches { result ≡ matches_name' (tokens_of tokens.now) name.now }
    ensures work { CountsAtMost (tokens_work (tokens_of tokens.now)
        + name_work (tokens_of tokens.now) (length name.now)) steps.old steps.new }
{
    ends_match(tokens, name, steps) && matches_name(tokens, name, steps)
}

/// Whether the tokens match the whole name.
fn matches_name(tokens: &[Token], name: &[u8], steps: &mut Steps) -> bool
    ensures matches { result ≡ matches_name' (tokens_of tokens.now) name.now }
    ensures work { CountsAtMost (name_work (tokens_of tokens.now) (length name.now)) steps.old steps.new }
{
    let mut left = tokens;
    let mut rest = name;
    'tokens: loop {
        match name_step(left, rest, steps) {
            NameStep::Star(later) => return matches_after_star(later, rest, steps),
            NameStep::Byte(later, more) => {
                left = later;
                rest = more;
            }
            NameStep::End => return true,
            NameStep::Mismatch => return false,
        }
    }
}

/// Whether a star and the tokens match the whole name.
fn matches_after_star(tokens: &[Token], name: &[u8], steps: &mut Steps) -> bool
    ensures matches { result ≡ matches_name' (star ∷ tokens_of tokens.now) name.now }
    ensures work { CountsAtMost (name_work (tokens_of tokens.now) (length name.now)) steps.old steps.new }
{
    let mut after = tokens;
    let mut from = from_first(tokens, name, steps);
    let mut left = tokens;
    let mut rest = from;
    'tokens: loop {
        match name_step(left, rest, steps) {
            NameStep::Star(later) => {
                after = later;
                from = from_first(after, rest, steps);
                left = later;
                rest = from;
            }
            NameStep::Byte(later, more) => {
                left = later;
                rest = more;
            }
            NameStep::End => return true,
            NameStep::Mismatch => {
                let Some((_, more)) = from.split_first() else {
                    return false;
                };
                from = from_first(after, more, steps);
                left = after;
                rest = from;
            }
        }
    }
}

/// The rest of a name from the first byte on that the first token may match.
fn from_first<'n>(tokens: &[Token], name: &'n [u8], steps: &mut Steps) -> &'n [u8]
    ensures matches { matches_name' (star ∷ tokens_of tokens.now) name.now
        ≡ matches_name' (star ∷ tokens_of tokens.now) result.now }
    ensures shorter { length result.now ≤ length name.now }
    ensures work { steps.new.count + length result.now ≡ steps.old.count + length name.now }
{
    let Some((Token::Byte(byte), _)) = tokens.split_first() else {
        return name;
    };
    let skipped = memchr(*byte, name).unwrap_or(name.len());
    steps.add(skipped);
    &name[skipped..]
}

/// What the first element of a glob and the first name of a path say, and what is left of the glob.
enum PathStep<'g> {
    Folders(&'g [Element]),
    Name(&'g [Element]),
    End,
    Mismatch,
}

fn path_step<'g>(glob: &'g [Element], path: &[&[u8]], steps: &mut Steps) -> PathStep<'g>
    ensures says { PathStepSays glob.now path.now result }
    ensures work { CountsAtMost (pair_work (glob_of glob.now) (names path.now) + 1) steps.old steps.new }
{
    steps.add(1);
    let Some((element, later)) = glob.split_first() else {
        return if path.is_empty() {
            PathStep::End
        } else {
            PathStep::Mismatch
        };
    };
    let Element::One(tokens) = element else {
        return PathStep::Folders(later);
    };
    let Some((name, _)) = path.split_first() else {
        return PathStep::Mismatch;
    };
    if matches_name(tokens, name, steps) {
        return PathStep::Name(later);
    }
    PathStep::Mismatch
}

/// Whether a glob matches the whole path. Few globs match the last name, so it is compared first.
pub(crate) fn matches_glob(glob: &[Element], path: &[&[u8]], steps: &mut Steps) -> bool
    ensures work { CountsAtMost (path_work (glob_of glob.now) (names path.now)) steps.old steps.new }
    ensures matches { result ≡ matches_path' (glob_of glob.now) (names path.now) }
{
    if let Some((Element::One(tokens), elements)) = glob.split_last()
        && let Some((name, above)) = path.split_last()
    {
        if !matches_last(tokens, name, steps) {
            return false;
        }
        return matches_path(elements, above, steps);
    }
    matches_path(glob, path, steps)
}

/// Whether the elements of a glob match the whole path.
fn matches_path(glob: &[Element], path: &[&[u8]], steps: &mut Steps) -> bool
    ensures work { CountsAtMost (path_work (glob_of glob.now) (names path.now)) steps.old steps.new }
    ensures matches { result ≡ matches_path' (glob_of glob.now) (names path.now) }
{
    let mut left = glob;
    let mut at = 0;
    'elements: loop {
        match path_step(left, &path[at..], steps) {
            PathStep::Folders(later) => return matches_after_folders(later, &path[at..], steps),
            PathStep::Name(later) => {
                left = later;
                at += 1;
            }
            PathStep::End => return true,
            PathStep::Mismatch => return false,
        }
    }
}

/// Whether `**` and the elements match the whole path.
fn matches_after_folders(glob: &[Element], path: &[&[u8]], steps: &mut Steps) -> bool
    ensures work { CountsAtMost (path_work (glob_of glob.now) (names path.now)) steps.old steps.new }
    ensures matches { result ≡ matches_path' (folders ∷ glob_of glob.now) (names path.now) }
{
    let mut after = glob;
    let mut from = 0;
    let mut left = glob;
    let mut at = 0;
    'elements: loop {
        match path_step(left, &path[at..], steps) {
            PathStep::Folders(later) => {
                after = later;
                from = at;
                left = later;
            }
            PathStep::Name(later) => {
                left = later;
                at += 1;
            }
            PathStep::End => return true,
            PathStep::Mismatch => {
                if from == path.len() {
                    return false;
                }
                from += 1;
                left = after;
                at = from;
            }
        }
    }
}
