// Frequencies in source text, by which words are ranked. Only speed depends on them.
use crate::prefilter::ProbeKind;
use crate::probe::{ByteTest, MASKED};
use cs_syntax::ByteSet;

/// The largest number of sets of a word.
pub(crate) const MOST_SETS: usize = 32;

/// The frequency of a byte in source text, per 10,000 bytes. These are round estimates, one for
/// each class of bytes.
fn frequency(byte: u8) -> u64 {
    match byte {
        b' ' => 1500,
        b'e' | b't' => 550,
        b'a' | b'i' | b'n' | b'o' | b'r' | b's' => 420,
        b'\t' | b'\n' | b'_' | b'c' | b'd' | b'l' => 300,
        b'f' | b'm' | b'p' | b'u' => 200,
        b'0' | b'b' | b'g' | b'h' => 150,
        b'"' | b'(' | b')' | b'*' | b',' | b'-' | b'.' | b'/' | b';' | b'=' => 90,
        b'k' | b'v' | b'w' | b'x' | b'y' => 80,
        b'1'..=b'9' | b'A'..=b'Z' => 60,
        b'j' | b'q' | b'z' => 20,
        b'!'..=b'~' => 30,
        _ => 2,
    }
}

/// The sums of `frequency` over the bytes of each low nibble.
pub(crate) const NIBBLE_FREQUENCIES: [u64; 16] = [
    1990, 670, 860, 950, 1080, 980, 510, 460, 520, 1088, 598, 340, 560, 520, 680, 922,
];

/// The frequency of all bytes.
const ALL: u64 = 10_000;

/// The frequency of the bytes of a set in source text, per 10,000 bytes.
fn frequency_of(set: &ByteSet) -> u64 {
    if let Some(test) = ByteTest::of(set) {
        let other_case = test.byte & !test.mask;
        let other = u64::from(test.mask != 0).saturating_mul(frequency(other_case));
        return frequency(test.byte).saturating_add(other);
    }
    let mut sum = 0u64;
    for byte in 0..=255u8 {
        if set.contains(byte) {
            sum = sum.saturating_add(frequency(byte));
        }
    }
    sum.min(ALL)
}

/// Common trigrams, which are far more frequent in source text than the frequencies of their bytes
/// suggest: parts of keywords and of usual names.
const COMMON: [[u8; 3]; 44] = [
    *b"def", *b"efi", *b"fin", *b"ine", *b"int", *b"ion", *b"tio", *b"ing", *b"con", *b"ons",
    *b"nst", *b"str", *b"tru", *b"ruc", *b"uct", *b"ret", *b"etu", *b"tur", *b"urn", *b"the",
    *b"for", *b"ter", *b"typ", *b"ype", *b"ent", *b"ame", *b"nam", *b"sta", *b"ate", *b"ati",
    *b"tat", *b"and", *b"res", *b"tor", *b"set", *b"siz", *b"ize", *b"dat", *b"val", *b"all",
    *b"loc", *b"ock", *b"inc", *b"clu",
];

/// The share of offsets at which a common trigram is expected, in units of 10^-12.
const COMMON_SHARE: u64 = 500_000_000;

/// The share of offsets of the common trigrams that are in the sets, in units of 10^-12.
fn common_share(sets: &[ByteSet]) -> u64 {
    let [a, b, c] = sets else { return 0 };
    let mut sum = 0u64;
    for [first, second, third] in COMMON {
        if a.contains(first) && b.contains(second) && c.contains(third) {
            sum = sum.saturating_add(COMMON_SHARE);
        }
    }
    sum
}

/// The start of a part of a run, and the share of offsets at which the part is expected, in units
/// of 10^-12.
#[derive(Clone, Copy, Drop)]
pub(crate) struct Part {
    pub(crate) from: usize,
    pub(crate) share: u64,
}

/// Below this share of offsets, in units of 10^-12, candidates cost little.
pub(crate) const RARE: u64 = 1_000_000_000;

/// The rarest three neighbouring sets of a run, or the first: a word that begins where the run does
/// may be exact, which pays where it is frequent. Behind fewer sets any bytes follow.
fn rarest_trigram(run: &[ByteSet]) -> Part {
    let mut rarest = Part { from: 0, share: 0 };
    let mut first = 0;
    let mut older = ALL;
    let mut old = ALL;
    for (i, set) in run.iter().enumerate() {
        let frequency = frequency_of(set);
        let from = i.saturating_sub(2);
        let share = older.saturating_mul(old).saturating_mul(frequency);
        let share = share.saturating_add(common_share(&run[from..=i]));
        if from == 0 {
            first = share;
        }
        if from == 0 || share < rarest.share {
            rarest = Part { from, share };
        }
        older = old;
        old = frequency;
    }
    let is_common = COMMON_SHARE <= first && first < RARE;
    if is_common || first < rarest.share.saturating_mul(2).min(RARE) {
        rarest.from = 0;
    }
    if run.iter().all(|set| ByteTest::of(set).is_some()) {
        rarest.from = rarest.from.min(run.len().saturating_sub(MASKED));
    }
    rarest
}

/// Above this share of offsets, per 10^8, a pair is not worth its search.
const MOST_PAIRS: u64 = 1_000_000;

/// What counts as the frequency of the second set of a pair that has none: a single byte has to be
/// rarer than a pair, unless it is a run by itself or with sets of most bytes.
const NO_SECOND: u64 = 30_000;

/// A set of more bytes, as those behind a word, rules out little.
const MOST_MEMBERS: u32 = 128;

/// How rare two neighbouring letters of source text are, 27 entries for each first letter, the
/// underscore as the last: `a` is 1, and each further letter half as frequent. They were counted in
/// a text that is 60 % Linux, and Python modules and C headers for the rest.
const BIGRAMS: &[u8; 729] = b"\
    pkjjpnkpkpmijipksijhllollpnlpnojqqqlmsjpplosmnokssslsojplnioojkujjmpimrkmjlqrqmsm\
    konlioopjqqmmplnrllmlonqnuljmjikjkompnijinkkhhinkmjlqkkpoollptjvtmppjpslmmltrrnwo\
    mqoqjqnllttmnmnlullnlrrrprmjqoohsrsjuroopkpumnlnrptmqnkkjkjjkrnqnjkhikpkiiolsmsln\
    putsmsutqutttrnrtuqtourxvrrnqopjrormsroqooqsplpnsouqunjookijorjtmjpojnuokkkonqktm\
    ilnnipqqkuqllokjrqknlqooptnjpjiilipkqmmoljmqpjilmqomrlmljjnjlplpljjhljrhkjjlknqqn\
    jpmnjoolktoknqjkqjljlqoomsmrunqrsvuszzqptrswrptktvswwpjollhmkqismlkkinokjjkmookql\
    lnjnhnokjsmmnnkkpnjikpnqkqliolnhmqhhtplnpilsijkkpmnkqklmllkmmrlsrjkjojwjjjsqtmtsn\
    kponjpotkvtqoqmpuppqqtttsvplrqplrslkwrpnnlrrmnrstossxnmqmpmorrmtvporqmtqqkrtuootn\
    lqprornunusmommkuokmrrntssmotstlstrowsqrsotursrsuvvpsqlmllmmmnlrnlmmmlplklnmnprql";

/// The row of a letter in the table.
fn row_of(test: ByteTest) -> Option<u8> {
    match test.byte {
        b'_' => Some(26),
        b'a'..=b'z' => Some(test.byte - b'a'),
        b'A'..=b'Z' => Some(test.byte - b'A'),
        _ => None,
    }
}

/// The share of offsets of two neighbouring letters, per 10^8. A capital makes them rarer.
fn share_of_letters(first: ByteTest, second: ByteTest) -> Option<u64> {
    let row = usize::from(row_of(first)?);
    let level = *BIGRAMS.get(27 * row + usize::from(row_of(second)?))?;
    let has_capital = first.byte < b'_' || second.byte < b'_';
    let capitals = if has_capital { 4 } else { 0 };
    100_000_000u64.checked_shr(u32::from(level.saturating_sub(b'a')) + capitals)
}

/// The indices of the rarest two sets that can be tested by a comparison, if they are rare enough.
/// They are the same if there is one such set.
pub(crate) fn rarest_pair(run: &[ByteSet]) -> Option<(usize, usize)> {
    let (first, frequency) = rarest_tested(run, None)?;
    let (second, rest) = rarest_tested(run, Some(first)).unwrap_or((first, NO_SECOND));
    let is_alone = run.iter().filter(|set| set.len() <= MOST_MEMBERS).count() == 1;
    let product = frequency.saturating_mul(rest);
    let share = if is_alone { 0 } else { product };
    if share > MOST_PAIRS {
        return None;
    }
    Some(rarest_neighbours(run, share).unwrap_or((first, second)))
}

/// The indices of the rarest neighbours that can be tested by a comparison, if they are rarer than
/// a pair with this share of offsets, per 10^8. They are preferred, since more is known of them.
fn rarest_neighbours(run: &[ByteSet], share: u64) -> Option<(usize, usize)> {
    let mut best = None;
    let mut least = share.saturating_mul(3);
    for (i, sets) in run.windows(2).take(MOST_SETS - 1).enumerate() {
        if let (Some(first), Some(second)) = (ByteTest::of(&sets[0]), ByteTest::of(&sets[1])) {
            let independent = frequency_of(&sets[0]).saturating_mul(frequency_of(&sets[1]));
            let share = share_of_letters(first, second).unwrap_or(independent);
            if share < least {
                least = share;
                best = Some((i, i + 1));
            }
        }
    }
    best
}

/// The rarest set that can be tested by a comparison, other than the one at `except`, and its
/// frequency.
fn rarest_tested(run: &[ByteSet], except: Option<usize>) -> Option<(usize, u64)> {
    let mut best = None;
    let mut least = u64::MAX;
    for (i, set) in run.iter().enumerate() {
        if except != Some(i) && ByteTest::of(set).is_some() && frequency_of(set) < least {
            least = frequency_of(set);
            best = Some((i, least));
        }
    }
    best
}

/// The part of the run that is the best for this kind of search.
pub(crate) fn rarest_part(kind: ProbeKind, run: &[ByteSet]) -> Option<Part> {
    let trigram = rarest_trigram(run);
    match kind {
        ProbeKind::Trigrams if run.len() < 3 => None,
        ProbeKind::Trigrams => Some(trigram),
        ProbeKind::Pairs => {
            let (first, _) = rarest_pair(run)?;
            let is_long = run.len() > MOST_SETS;
            let from = first.saturating_sub(MOST_SETS / 2) * usize::from(is_long);
            Some(Part { from, ..trigram })
        }
    }
}
