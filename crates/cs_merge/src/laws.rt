// Laws of the merge, and of the content of an index. None of these functions does anything.
ghost use Rattle.std.specs.Prelude.{◌≡◌, ◌<◌, ◌^◌, ◌||◌, ◌↔◌, List, ℕ, true, false, Some, Ok, length, slice_index_or};
ghost use Rattle.cs_merge.specs.Cited.{Paths, bytes_cmp, AreBytes, set_at, is_covered, least, Files, encoding, parts_written, opening, Parts, files_in, lists_in, paths_in, DecodesAs, merge_files, merge_paths, merge_index, IsCoveredBy, is_replaced, IsContent, LieUnder, DecodesAsContent, HasContent, Opens};
ghost use Rattle.std.specs.FinMap as map;
ghost use Rattle.cs_tree.specs.PathSet as set;

/// At a name that the newer paths cover, the merge has what the newer index has.
pub fn newer_wins()
    ensures { (paths : Paths) (old newer : Files) (name : List ℕ) → is_covered paths name ≡ true →
        map.get (merge_files paths old newer) name ≡ map.get newer name }
{}

/// At any other name the merge has what the old index has, provided the newer paths cover the newer
/// names.
pub fn others_stay()
    ensures { (paths : Paths) (old newer : Files) (name : List ℕ) →
        LieUnder paths newer → is_covered paths name ≡ false →
        map.get (merge_files paths old newer) name ≡ map.get old name }
{}

/// The merged paths cover exactly the names that the paths of either index cover.
pub fn merged_paths_cover()
    ensures { (old newer : Paths) (name : List ℕ) → is_covered (merge_paths old newer) name ≡
        (is_covered old name || is_covered newer name) }
{}

/// If the newer paths cover all old paths and names, the merge is the newer index, encoded anew.
pub fn what_is_covered_is_replaced()
    ensures paths { (old newer : Paths) → IsCoveredBy old newer → merge_paths old newer ≡ least newer }
    ensures files { (p q : Paths) (old newer : Files) → IsCoveredBy p q → LieUnder p old →
        merge_files q old newer ≡ newer }
    ensures index { (old newer : Parts) → is_replaced (paths_in newer) old ≡ true →
        merge_index old newer ≡ encoding (least (paths_in newer)) (files_in newer) }
{}

/// The merge of valid contents is valid.
pub fn merging_keeps_content()
    ensures content { (p q : Paths) (f g : Files) → IsContent p f → IsContent q g →
        IsContent (merge_paths p q) (merge_files q f g) }
    ensures under { (p q : Paths) (f g : Files) → LieUnder p f → LieUnder q g →
        LieUnder (merge_paths p q) (merge_files q f g) }
{}

/// An encoding of less than 2^32 bytes decodes as the content that it encodes.
pub fn encodings_decode_as_their_content()
    ensures decoded { (paths : Paths) (files : Files) → IsContent paths files →
        length (encoding paths files) < 2 ^ 32 →
        DecodesAs (encoding paths files) (parts_written (set.items paths) (map.entries files)) }
    ensures decodes { (paths : Paths) (files : Files) → IsContent paths files →
        length (encoding paths files) < 2 ^ 32 → DecodesAsContent (encoding paths files) paths files }
{}

/// Bytes decode as at most one content.
pub fn bytes_have_one_content()
    ensures once { (bytes : List ℕ) (p q : Paths) (f g : Files) → DecodesAsContent bytes p f →
        DecodesAsContent bytes q g → (p ≡ q) × (f ≡ g) }
    ensures content { (bytes : List ℕ) (paths : Paths) (files : Files)
        → DecodesAsContent bytes paths files → IsContent paths files }
{}

/// The names of an index are those of its files, in order, and each file has the trigram set of its
/// name.
pub fn names_have_their_sets()
    ensures names { (bytes : List ℕ) (paths : Paths) (files : Files)
        (decoding : DecodesAsContent bytes paths files) → map.keys files ≡ decoding.parts.names }
    ensures sets { (bytes : List ℕ) (paths : Paths) (files : Files)
        (decoding : DecodesAsContent bytes paths files) (id : ℕ) (d : List ℕ) →
        id < length decoding.parts.names → map.get files (slice_index_or decoding.parts.names id d) ≡
        Some (set_at id (lists_in decoding.parts)) }
{}

/// Two contents with the same encoding of less than 2^32 bytes are equal.
pub fn encodings_have_one_content()
    ensures { (p q : Paths) (f g : Files) → IsContent p f → IsContent q g → length (encoding p f) < 2 ^ 32 →
        encoding p f ≡ encoding q g → (p ≡ q) × (f ≡ g) }
{}

/// Bytes decode as paths and files exactly if they open as an index with these paths and files,
/// with ascending names and with no damaged list.
pub fn decodable_bytes_open()
    ensures exactly { (bytes : List ℕ) (paths : Paths) (files : Files) → AreBytes bytes →
        DecodesAsContent bytes paths files ↔ Opens bytes paths files }
    ensures has { (bytes : List ℕ) (parts : Parts) (paths : Paths) (files : Files) →
        AreBytes bytes → opening bytes ≡ Ok parts →
        DecodesAsContent bytes paths files → HasContent parts paths files }
{}
