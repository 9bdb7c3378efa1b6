// Laws of the definitions.
ghost use Rattle.std.specs.Prelude.{◌≡◌, ◌++◌, ℕ, List, nat_lt};
ghost use Rattle.cs_lines.specs.Cited.{Finding, count_of, following, has_groups, joined, line_groups, text_rows};
ghost use Rattle.cs_lines.specs.declared.form.ShowOptions.{ShowOptions};

/// Lines of a text are printed if and only if one is marked.
pub fn lines_are_printed_if_marked()
    ensures { (options : ShowOptions) (finding : Finding) (name text : List ℕ) →
        has_groups (line_groups options finding name (text_rows options finding text))
        ≡ nat_lt 0 (count_of options finding text) }
{}

/// What is printed for texts one after another is what is printed for the first ones, and then what
/// follows it.
pub fn texts_follow_texts()
    ensures { (between : List ℕ) (groups more : List (List ℕ)) → joined between (groups ++ more)
        ≡ joined between groups ++ following between (has_groups groups) more }
{}
