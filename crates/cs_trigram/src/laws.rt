//! Laws of the definitions: these functions do nothing, and their contracts follow from the
//! definitions alone.
ghost use Rattle.std.specs.Prelude.{◌≡◌, ◌<◌, ◌++◌, ◌∷◌, ℕ, Bool, List, [], Some, None, length, true};
ghost use Rattle.cs_trigram.specs.Cited.{scan_outcome_of, text, skipped_for, ends, Tree, HasMatch, trigram, tri, closing_trigram, Ascends, has, HasTrigrams, HasExactRuns, first_broken, skip, text_trigrams};
ghost use Rattle.std.specs.List.{AllByRecursion};
ghost use Rattle.cs_trigram.specs.declared.scan.Limits.{Limits};
ghost use Rattle.cs_trigram.specs.declared.scan.Reason.{Reason};

/// The trigrams of some bytes ascend. They are the numbers of the substrings of three bytes, and no
/// others.
pub fn each_part_has_its_trigram()
    ensures ascend { (bytes : List ℕ) → Ascends (tri bytes) }
    ensures parts { (before after : List ℕ) (a b c : ℕ) →
        has (tri (before ++ (a ∷ b ∷ c ∷ after))) (trigram a b c) ≡ true }
    ensures only { (bytes : List ℕ) (n : ℕ) → has (tri bytes) n ≡ true → (before after : List ℕ)
        × (a b c : ℕ) × (bytes ≡ before ++ (a ∷ b ∷ c ∷ after)) × (n ≡ trigram a b c) }
{}

/// The trigrams of a substring are trigrams of the whole.
pub fn a_part_has_no_other_trigram()
    ensures { (before part after : List ℕ) (n : ℕ) →
        has (tri part) n ≡ true → has (tri (before ++ (part ++ after))) n ≡ true }
{}

/// No trigram of a text is ff ff ff, since a text has no byte above f7.
pub fn no_trigram_of_a_text_is_the_last()
    ensures { (most : Limits) (bytes : List ℕ) →
        first_broken most [] bytes ≡ None → AllByRecursion (λ n. n < closing_trigram) (tri bytes) }
{}

/// The outcome of a scan of a whole file says whether its bytes are text, and which trigrams they
/// have.
pub fn what_is_found_of_a_whole_file()
    ensures text { (most : Limits) (bytes trigrams : List ℕ) (count : ℕ) →
        text trigrams count ≡ scan_outcome_of most bytes ends →
        text_trigrams most bytes ≡ Some trigrams × count ≡ length bytes }
    ensures skipped_for { (most : Limits) (bytes : List ℕ) (reason : Reason) →
        skipped_for reason ≡ scan_outcome_of most bytes ends →
        skip most bytes ≡ Some reason × text_trigrams most bytes ≡ None }
{}

/// A set that has the trigrams of a matching line has the exact runs and the crosses of the tree.
/// So a query that requires only these loses no line.
pub fn matching_lines_have_the_exact_runs()
    ensures { (tree : Tree) (line : List ℕ) (set : ℕ → Bool) →
        HasMatch tree line → HasTrigrams set line → HasExactRuns set tree }
{}
