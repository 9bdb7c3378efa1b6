// Laws of states.
ghost use Rattle.std.specs.Prelude.{◌≡◌, ◌↔◌, ◌<◌, ◌^◌, ℕ, List, Option, Some, true, length};
ghost use Rattle.std.specs.declared.cmp.Ordering.TheVariants.{Less};
ghost use Rattle.cs_index.specs.Stored.{StoredParts};
ghost use Rattle.cs_index.specs.OpenedParts.{Parts};
ghost use Rattle.cs_tree.specs.Cover.{covers};
ghost use Rattle.cs_tree.specs.NameOrder.{bytes_cmp};
ghost use Rattle.cs_state.specs.Cited.{HasForm, HasIndex, HasNumbers, IsLearnable, IsState, Known, cover_of, sealed, stamped};
ghost use Rattle.cs_state.specs.declared.state_key.StateKey.{StateKey};
ghost use Rattle.cs_state.specs.declared.state_key.StateSeal.{StateSeal};

/// A stamped name is that of one file.
pub fn stamped_names_are_unique()
    ensures { (a b : Known) → IsLearnable a.name → IsLearnable b.name → HasNumbers a.stamp →
        HasNumbers b.stamp → stamped a ≡ stamped b → a ≡ b }
{}

/// Stamped names have the order of their paths.
pub fn stamped_names_ascend()
    ensures { (a b : Known) → IsLearnable a.name → IsLearnable b.name → bytes_cmp a.name b.name ≡ Less →
        bytes_cmp (stamped a) (stamped b) ≡ Less }
{}

/// A stamped name is less than a path exactly where its own path is. So the names of the file at a
/// path come first among those that are not less.
pub fn stamped_names_follow_paths()
    ensures { (one : Known) (path : List ℕ) → IsLearnable one.name → IsLearnable path →
        (bytes_cmp (stamped one) path ≡ Less) ↔ (bytes_cmp one.name path ≡ Less) }
{}

/// The cover of a path covers exactly the stamped names of the file at the path.
pub fn covers_are_of_one_file()
    ensures { (one : Known) (path : List ℕ) → IsLearnable one.name → IsLearnable path →
        (covers (cover_of path) (stamped one) ≡ true) ↔ (one.name ≡ path) }
{}

/// A sealed index has the form that `StateFile::open` asks for.
pub fn sealed_states_have_the_form()
    ensures { (seal : StateSeal) (index : List ℕ) → length (sealed seal index) < 2 ^ 32 →
        HasForm seal (sealed seal index) (length index) }
{}

/// Bytes have the form of a state file with at most one length of its index.
pub fn lengths_are_unique()
    ensures { (bytes : List ℕ) (seal same : StateSeal) (one other : ℕ) →
        HasForm seal bytes one → HasForm same bytes other → one ≡ other }
{}

/// The store of the index in a state that is open has the bytes of the index that was sealed.
pub fn opened_states_have_their_index()
    ensures { (key : StateKey) (bytes : List ℕ) (parts : Parts) (model : Option (List ℕ))
        (stored : StoredParts) → HasIndex bytes model stored → (state : IsState key bytes parts) →
        model ≡ Some state.index }
{}
