// Laws: properties of the definitions, with no code.
ghost use Rattle.std.specs.Prelude.{◌↔◌, ◌≡◌, ◌≢◌, ◌<◌, ◌≤◌, ◌^◌, ◌&&◌, [], ◌∷◌, ◌++◌, ℕ, Bool, true, List, Some, IsUtf8, length};
ghost use Rattle.std.specs.Str.{chars};
ghost use Rattle.cs_syntax.specs.Cited.{is_scalar, has_char, canonical_ranges, AreCanonical, HasOneParse, HasLevels, Divide, AreCuts, AreCutsOf, char_ranges, floor, taken_at, MatchesEntered, Tree, one_of, rep, IsSelfContained, MatchesEither, either, MatchesWholeLine, char_set, byte_kind_of, sequence, max_repeat, counted_repeat, quote_meta, atoms_of, ParsesAs, HasSyntaxError, IsTextFault, Group, Level, levels, parse_suffix};
ghost use Rattle.std.specs.List.{AllByRecursion};
ghost use Rattle.cs_syntax.specs.declared.items.ByteKind.TheVariants.{Literal};
ghost use Rattle.cs_syntax.specs.declared.fault.PatternFault.TheVariants.{BadRepeat};
ghost use Rattle.cs_syntax.specs.declared.items.Before.{Before};
ghost use Rattle.cs_syntax.specs.declared.items.Flags.{Flags};
ghost use Rattle.cs_syntax.specs.declared.fault.PatternFault.{PatternFault};

/// A text parses as exactly one tree or has exactly one syntax error, and never both.
pub fn parsing_is_deterministic()
    ensures { (text : List ℕ) (fold : Bool) → HasOneParse text fold }
{}

/// `TooLarge` and `Memory` are not syntax errors: only `parse` returns them.
pub fn syntax_errors_are_text_faults()
    ensures { (text : List ℕ) (fold : Bool) (fault : PatternFault) (offset : ℕ)
        → HasSyntaxError text fold fault offset → IsTextFault fault }
{}

/// The parse of a suffix has one level more than there are open groups. So a `)` always returns to
/// an enclosing level, and a whole text has one level.
pub fn each_open_group_has_a_level()
    ensures one_more { (skip offset : ℕ) (before : Before) (groups : List Group) (flags : Flags)
        (text : List ℕ) → HasLevels (parse_suffix skip offset before groups flags text) groups }
    ensures never { (skip offset : ℕ) (before : Before) (group : Group) (groups : List Group)
        (flags : Flags) (text : List ℕ) (level : Level)
        → parse_suffix skip offset before (group ∷ groups) flags text ≢ levels level [] }
    ensures alone { (skip offset : ℕ) (before : Before) (flags : Flags) (text : List ℕ) (level : Level)
        (more : List Level) → parse_suffix skip offset before [] flags text ≡ levels level more → more ≡ [] }
{}

/// A literal with counts, such as `x{2,3}`, parses as that repeat if the first count is at most the
/// second and both are at most 1000. Otherwise it has a syntax error at the brace.
pub fn counted_repeats_parse_as_written()
    ensures reads { (b n m : ℕ) (fold : Bool) → byte_kind_of b ≡ Literal → n ≤ m → m ≤ max_repeat
        → ParsesAs (b ∷ counted_repeat n m) fold (rep (one_of (char_set fold b)) n (Some m)) }
    ensures syntax { (b n m : ℕ) (fold : Bool) → byte_kind_of b ≡ Literal → n < 2 ^ 64 → m < 2 ^ 64
        → (n ≤ m → m ≤ max_repeat → ⊥) → HasSyntaxError (b ∷ counted_repeat n m) fold BadRepeat 1 }
{}

/// `quote_meta` of a text parses as the sequence of its characters (Go: `regexp.QuoteMeta`).
pub fn quoted_texts_parse_as_literals()
    ensures ascii { (text : List ℕ) (fold : Bool) → AllByRecursion (λ b. b < 128) text
        → ParsesAs (quote_meta text) fold (sequence (atoms_of fold text)) }
    ensures characters { (text : List ℕ) (fold : Bool) → IsUtf8 text
        → ParsesAs (quote_meta text) fold (sequence (atoms_of fold (chars text))) }
{}

/// `s|t` parses as a tree that matches exactly the spans that the tree of `s` or that of `t`
/// matches, if `s` is self-contained: it leaves the flags unchanged and its class names are closed.
pub fn bars_parse_as_alternations()
    ensures { (s t : List ℕ) (fold : Bool) (x y : Tree) → IsSelfContained fold s
        → ParsesAs s fold x → ParsesAs t fold y
        → (z : Tree) × ParsesAs (s ++ 124 ∷ t) fold z × MatchesEither z x y }
{}

/// The tree of either of two trees matches exactly the spans that one of them matches, and the tree
/// of a whole line exactly the lines whose whole span the tree matches.
pub fn joined_trees_match_as_said()
    ensures either { (x y : Tree) → MatchesEither (either x y) x y }
    ensures whole_line { (t : Tree) → MatchesWholeLine t }
{}

/// Canonical ranges with the same members are equal, and `canonical_ranges` of a predicate has
/// exactly the characters that satisfy it.
pub fn canonical_ranges_are_unique()
    ensures same { (xs ys : List (ℕ × ℕ)) → AreCanonical xs → AreCanonical ys
        → ((c : ℕ) → has_char xs c ≡ has_char ys c) → xs ≡ ys }
    ensures maximal { (test : ℕ → Bool) → AreCanonical (canonical_ranges test) }
    ensures passing { (test : ℕ → Bool) (c : ℕ)
        → has_char (canonical_ranges test) c ≡ (is_scalar c && test c) }
{}

/// All numbers of an interval are in the same sets of characters.
pub fn numbers_of_an_interval_are_alike()
    ensures divided { (tree : Tree) (cuts : List ℕ) → AreCutsOf tree cuts
        → AreCuts cuts × Divide cuts (char_ranges tree) }
    ensures members { (cuts : List ℕ) (ranges : List (ℕ × ℕ)) (n : ℕ) → Divide cuts ranges
        → has_char ranges (floor cuts n) ≡ has_char ranges n }
{}

/// A set of characters that is stepped byte by byte is taken exactly where a member ends that
/// begins where the set was entered.
pub fn characters_are_found_byte_by_byte()
    ensures { (cuts line : List ℕ) (ranges : List (ℕ × ℕ)) (enter : ℕ → Bool) (j : ℕ)
        → Divide cuts ranges → j ≤ length line
        → taken_at cuts line ranges enter j ≡ true ↔ MatchesEntered line ranges enter j }
{}
