// Laws of the definitions.
ghost use Rattle.std.specs.List.{AllByRecursion};
ghost use Rattle.std.specs.Prelude.{◌≡◌, ◌++◌, Bool, false, ℕ, List};
ghost use Rattle.cs_lines.specs.Findings.{Finding};
ghost use Rattle.cs_lines.specs.declared.form.ShowOptions.{ShowOptions};
ghost use Rattle.cs_tree.specs.Snapshot.{Item};
ghost use Rattle.cs_project.specs.Searched.{NamedItem, PrintsEach, are_marked, items_printed};
ghost use Rattle.cs_project.specs.Visits.{KeepsForm, ShowsItems};
ghost use Rattle.cs_project.specs.declared.file_search.FileSearch.{FileSearch};

/// What is printed for items, and then for more of them, is what is printed for all of them.
pub fn items_follow_items()
    ensures { (old mid new : FileSearch) (items more : List NamedItem) (given middle later : List ℕ)
        → KeepsForm old mid → KeepsForm mid new → ShowsItems old mid items given middle
        → ShowsItems mid new more middle later → ShowsItems old new (items ++ more) given later }
{}

/// What is printed for each of some items is what is printed for all of them, if none is cut.
pub fn whole_items_are_printed()
    ensures { (options : ShowOptions) (binary : Bool) (finding : Finding) (cuts : Item → Bool)
        (items : List NamedItem) (marked next : Bool) (given later : List ℕ)
        → AllByRecursion (λ item. cuts item.1 ≡ false) items
        → PrintsEach options binary finding cuts items marked next given later
        → (later ≡ given ++ items_printed options binary finding marked items)
        × (next ≡ are_marked options binary finding marked items) }
{}
