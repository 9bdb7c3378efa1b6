// Laws of histories. None of these functions does anything.
ghost use Rattle.std.specs.Prelude.{◌≡◌, ◌↔◌, ◌<◌, ◌^◌, List, [], ◌∷◌, ◌++◌, ℕ, Option, Some, None, Ok, Bool, true, false, map, length, slice_index_or};
ghost use Rattle.cs_tree.specs.Folders.{IsTree, IsModelled};
ghost use Rattle.cs_tree.specs.PathSet.{Paths};
ghost use Rattle.cs_index.specs.PostingLists.{set_at};
ghost use Rattle.std.specs.List.{AllByRecursion, AllZip};
ghost use Rattle.std.specs.FinMap as map';
ghost use Rattle.cs_tree.specs.PathSet as set;
ghost use Rattle.cs_tree.specs.Cover.{is_covered, least};
ghost use Rattle.cs_tree.specs.Snapshot.{Snapshot};
ghost use Rattle.cs_tree.specs.Reachability.{reachable_files};
ghost use Rattle.cs_index.specs.Encoding.{Files, encoding};
ghost use Rattle.cs_index.specs.Opening.{opening};
ghost use Rattle.cs_index.specs.OpenedParts.{Parts, lists_in, paths_in, files_in};
ghost use Rattle.cs_trigram.specs.Text.{text_trigrams, limits};
ghost use Rattle.cs_merge.specs.Merge.{merge_files, merge_paths};
ghost use Rattle.cs_merge.specs.Mergeable.{merge_index};
ghost use Rattle.cs_merge.specs.Content.{IsContent, LieUnder, DecodesAsContent};
ghost use Rattle.cs_history.specs.History.{History, nothing, existing, ◌⊳◌, Update, walked_paths, paths_of, files_found, files_of, index_of};
ghost use Rattle.cs_history.specs.JobIndex.{tree_index, update_index};
ghost use Rattle.cs_history.specs.FileTrigrams.{file_trigrams, ReadAsIndexed};
ghost use Rattle.cs_history.specs.WellFormed.{AreClean, IsStartIndex, IsHistory};
ghost use Rattle.cs_history.specs.StartIndex.{HasStartIndex};
ghost use Rattle.cs_history.specs.HistoryIndex.{IsBuiltByJobs, indexed_names};
ghost use Rattle.cs_history.specs.IndexBytes.{HasIndex};
ghost use Rattle.cs_history.specs.Jobs.{given_paths, has_no_path, AreCleanable, IsFitting, after, history_after};
ghost use Rattle.cs_history.specs.Premises.{modelled_snapshot, Premises};
ghost use Rattle.cs_history.specs.Replies.{NeedsIndex, IsFirstBad, IsRightReply, AreRightReplies};
ghost use Rattle.cs_history.specs.Headline.{Indexes};
ghost use Rattle.cs_history.specs.Shards.{LieOutside, AreShards, files_of_both, sorted_by_name, searched_names};
ghost use Rattle.cs_trigram.specs.declared.queries.Query.{Query};
ghost use Rattle.cs_args.specs.declared.jobs.IndexJob.{IndexJob};
ghost use Rattle.cs_args.specs.declared.fault.CindexFault.{CindexFault};
ghost use Rattle.cs_args.specs.declared.jobs.Reply.{Reply};
ghost use Rattle.cs_args.specs.declared.jobs.Reply.TheVariants.{Done, Refused};

/// An existing index counts as a first job: its paths were given, its trigram sets were read, and
/// until a later job its bytes are the index.
pub fn histories_may_begin_with_an_index()
    ensures index { (bytes : List ℕ) (parts : Parts) → index_of (existing bytes parts) ≡ Some bytes }
    ensures paths { (bytes : List ℕ) (parts : Parts) →
        paths_of (existing bytes parts) ≡ least (paths_in parts) }
    ensures files { (bytes : List ℕ) (parts : Parts) → files_of (existing bytes parts) ≡ files_in parts }
{}

/// Merging the files and paths of a history with those that one more job found gives those of the
/// history with that job.
pub fn merging_keeps()
    ensures files { (history : History) (update : Update) →
        merge_files (walked_paths update history) (files_of history) (files_found update history) ≡
        files_of (update ⊳ history) }
    ensures paths { (history : History) (update : Update) →
        merge_paths (paths_of history) (walked_paths update history) ≡ paths_of (update ⊳ history) }
{}

/// The index of a first job on no index is the encoding of what the job found.
pub fn first_job()
    ensures { (update : Update) → index_of (update ⊳ nothing) ≡ Some (update_index update nothing) }
{}

/// The index after one more job is the encoding of the merge of the content before it with what the
/// job found.
pub fn one_job_more()
    ensures { (before : History) (update : Update) → index_of (update ⊳ before) ≡
        Some (encoding (merge_paths (paths_of before) (walked_paths update before))
        (merge_files (walked_paths update before) (files_of before) (files_found update before))) }
{}

/// Merging the index of a history with the index of one more job gives the index after that job.
/// This holds for the content that both decode as, and for the parts that both open as; the parts
/// may be those of an existing index.
pub fn merging_gives_the_next_index()
    ensures decodes { (before : History) (update : Update) (old newer bytes : List ℕ) →
        IsHistory (update ⊳ before) → IsBuiltByJobs before →
        index_of before ≡ Some old → length old < 2 ^ 32 →
        newer ≡ update_index update before → length newer < 2 ^ 32 →
        ((p q : Paths) (f g : Files) → DecodesAsContent old p f → DecodesAsContent newer q g →
        bytes ≡ encoding (merge_paths p q) (merge_files q f g)) → Some bytes ≡ index_of (update ⊳ before) }
    ensures opened { (before : History) (update : Update) (old newer bytes : List ℕ) →
        IsHistory (update ⊳ before) → index_of before ≡ Some old → length old < 2 ^ 32 →
        newer ≡ update_index update before → length newer < 2 ^ 32 →
        ((a b : Parts) → opening old ≡ Ok a → opening newer ≡ Ok b → bytes ≡ merge_index a b) →
        Some bytes ≡ index_of (update ⊳ before) }
{}

/// After `-reset` with paths the index is that of the files under these paths alone. After `-reset`
/// without paths there is none.
pub fn resets_start_anew()
    ensures paths { (before : History) (job : IndexJob) (tree : Snapshot) →
        job.list ≡ false → job.reset ≡ true → has_no_path job ≡ false →
        index_of (after before job tree Done) ≡ Some (tree_index tree (least (given_paths job))) }
    ensures bare { (before : History) (job : IndexJob) (tree : Snapshot) →
        job.list ≡ false → job.reset ≡ true → has_no_path job ≡ true →
        index_of (after before job tree Done) ≡ None }
{}

/// `-list` and jobs that fail leave the index as it is.
pub fn lists_and_errors_change_nothing()
    ensures list { (before : History) (job : IndexJob) (tree : Snapshot) → job.list ≡ true →
        index_of (after before job tree Done) ≡ index_of before }
    ensures refused { (before : History) (job : IndexJob) (tree : Snapshot) (fault : CindexFault) →
        index_of (after before job tree (Refused fault)) ≡ index_of before }
{}

/// The first job that succeeds, other than `-list`, builds the index anew, and from then on the
/// index is one that jobs built.
pub fn jobs_replace_an_existing_index()
    ensures done { (before : History) (job : IndexJob) (tree : Snapshot) → job.list ≡ false →
        IsBuiltByJobs (after before job tree Done) }
    ensures later { (before : History) (job : IndexJob) (tree : Snapshot) (reply : Reply) →
        IsBuiltByJobs before → IsBuiltByJobs (after before job tree reply) }
{}

/// At a name that the paths of a job cover, the index has what the job found there, or nothing. At
/// any other name it stays as it was.
pub fn latest_job_decides()
    ensures covered { (update : Update) (before : History) (name : List ℕ) →
        is_covered (walked_paths update before) name ≡ true →
        map'.get (files_of (update ⊳ before)) name ≡ map'.get (files_found update before) name }
    ensures others { (update : Update) (before : History) (name : List ℕ) →
        is_covered (walked_paths update before) name ≡ false →
        map'.get (files_of (update ⊳ before)) name ≡ map'.get (files_of before) name }
{}

/// A job without paths keeps the paths of the index, and reads all files under them again.
pub fn job_without_paths()
    ensures paths { (update : Update) (before : History) → map'.len update.given ≡ 0 →
        paths_of (update ⊳ before) ≡ paths_of before }
    ensures files { (update : Update) (before : History) → map'.len update.given ≡ 0 →
        HasStartIndex before → files_of (update ⊳ before) ≡
        reachable_files (text_trigrams limits) update.tree (paths_of before) }
{}

/// The paths of an index and of a walk are clean, and none covers another.
pub fn paths_are_clean_and_reduced()
    ensures clean { (history : History) → IsHistory history → AreClean (paths_of history) }
    ensures reduced { (history : History) → least (paths_of history) ≡ paths_of history }
    ensures walked_clean { (update : Update) (before : History) → IsHistory (update ⊳ before) →
        AreClean (walked_paths update before) }
    ensures walked_reduced { (update : Update) (before : History) →
        least (walked_paths update before) ≡ walked_paths update before }
{}

/// What a job finds is valid content, and the walked paths cover its names.
pub fn walks_find_content()
    ensures content { (update : Update) (before : History) → IsHistory (update ⊳ before) →
        IsContent (walked_paths update before) (files_found update before) }
    ensures under { (update : Update) (before : History) →
        LieUnder (walked_paths update before) (files_found update before) }
{}

/// The paths and files of a history are valid content, and the paths cover the names.
pub fn histories_have_content()
    ensures content { (history : History) → IsHistory history →
        IsContent (paths_of history) (files_of history) }
    ensures under { (history : History) → HasStartIndex history →
        LieUnder (paths_of history) (files_of history) }
    ensures start { (history : History) → IsHistory history → HasStartIndex history }
{}

/// The index of a history decodes as its paths and files, and as no other content.
pub fn indexes_decode_as_their_content()
    ensures decodes { (history : History) (bytes : List ℕ) → HasIndex history bytes →
        IsBuiltByJobs history → DecodesAsContent bytes (paths_of history) (files_of history) }
    ensures once { (history : History) (bytes : List ℕ) (paths : Paths) (files : Files) →
        HasIndex history bytes → IsBuiltByJobs history → DecodesAsContent bytes paths files →
        (paths_of history ≡ paths) × (files_of history ≡ files) }
{}

/// If the indexed files still read as they were indexed, each file has the trigrams that the
/// posting lists have for its id.
pub fn still_reading_agrees()
    ensures names { (history : History) (bytes : List ℕ) (paths : Paths) (files : Files) →
        HasIndex history bytes → IsBuiltByJobs history → (decoded : DecodesAsContent bytes paths files) →
        indexed_names history ≡ decoded.parts.names }
    ensures sets { (history : History) (bytes : List ℕ) (paths : Paths) (files : Files)
        (tree : Snapshot) → HasIndex history bytes → IsBuiltByJobs history →
        ReadAsIndexed tree (map'.entries (files_of history)) →
        (decoded : DecodesAsContent bytes paths files) (id : ℕ) (d : List ℕ) →
        id < length decoded.parts.names → file_trigrams tree (slice_index_or decoded.parts.names id d) ≡
        Some (set_at id (lists_in decoded.parts)) }
{}

/// There is no index exactly if the history is empty.
pub fn no_index_without_a_job()
    ensures { (history : History) → (index_of history ≡ None) ↔ (history ≡ nothing) }
{}

/// Paths that can be cleaned are clean afterwards. Jobs that succeed keep a history well-formed.
pub fn done_jobs_give_histories()
    ensures paths { (job : IndexJob) → AreCleanable job → AreClean (given_paths job) }
    ensures followed { (before : History) (jobs : List IndexJob) (trees : List Snapshot)
        (replies : List Reply) →
        IsHistory before → AllByRecursion IsTree trees → AllZip IsFitting jobs replies →
        IsHistory (history_after before jobs trees replies) }
{}

/// Appending a job to a list of jobs adds it to the history that the list leads to.
pub fn jobs_follow_one_another()
    ensures { (before : History) (jobs : List IndexJob) (trees : List Snapshot)
        (replies : List Reply) (job : IndexJob) (tree : Snapshot) (reply : Reply) →
        length trees ≡ length jobs → length replies ≡ length jobs →
        history_after before (jobs ++ job ∷ []) (trees ++ tree ∷ []) (replies ++ reply ∷ []) ≡
        after (history_after before jobs trees replies) job tree reply }
{}

/// A list of right replies stays right if a reply that is right after its jobs is appended. The
/// causes of errors before the walk exclude one another.
pub fn replies_are_right_one_by_one()
    ensures more { (before : History) (jobs : List IndexJob) (trees : List Snapshot)
        (replies : List Reply) (job : IndexJob) (tree : Snapshot) (reply : Reply) →
        length trees ≡ length jobs → length replies ≡ length jobs →
        AreRightReplies before jobs trees replies →
        IsRightReply (history_after before jobs trees replies) job tree reply →
        AreRightReplies before (jobs ++ job ∷ []) (trees ++ tree ∷ []) (replies ++ reply ∷ []) }
    ensures index_or_path { (job : IndexJob) (path_index : ℕ) → NeedsIndex job →
        IsFirstBad job path_index → ⊥ }
    ensures one_path { (job : IndexJob) (path_index other : ℕ) → IsFirstBad job path_index →
        IsFirstBad job other → path_index ≡ other }
{}

/// The premises of the main promise hold without an index, with an existing index that a history
/// may start from, and, after each call, for the next one.
pub fn calls_establish_premises()
    ensures first { (trees : List (Option Snapshot)) → AllByRecursion IsModelled trees →
        Premises trees None nothing }
    ensures start { (trees : List (Option Snapshot)) (bytes : List ℕ) (parts : Parts) →
        AllByRecursion IsModelled trees → IsStartIndex bytes parts →
        Premises trees (Some bytes) (existing bytes parts) }
    ensures next { (jobs : List IndexJob) (trees later : List (Option Snapshot))
        (replies : List Reply) (old new : Option (List ℕ)) (earlier : History) →
        Premises trees old earlier → Indexes jobs trees replies old new → AllByRecursion IsModelled later →
        Premises later new (history_after earlier jobs (map modelled_snapshot trees) replies) }
{}

/// If no path of one index covers a name of the other, the merge has the files of both, with no
/// name twice. A search of the merge visits the names that searches of the two indexes visit,
/// merged by name. For two histories the rest of the premise holds, since their paths cover their
/// names.
pub fn shards_merge_by_name()
    ensures files { (p q : Paths) (f g : Files) → AreShards p f q g → merge_files q f g ≡ files_of_both f g }
    ensures once { (p q : Paths) (f g : Files) (name : List ℕ) → AreShards p f q g →
        map'.contains_key f name ≡ true → map'.contains_key g name ≡ false }
    ensures names { (p q : Paths) (f g : Files) (bytes : List ℕ) → AreShards p f q g →
        (decoded : DecodesAsContent bytes (merge_paths p q) (merge_files q f g)) →
        decoded.parts.names ≡ sorted_by_name (map'.keys f ++ map'.keys g) }
    ensures searched { (p q : Paths) (f g : Files) (query : Query) (keeps : List ℕ → Bool) →
        AreShards p f q g → searched_names query keeps (merge_files q f g) ≡
        sorted_by_name (searched_names query keeps f ++ searched_names query keeps g) }
    ensures left { (one other : History) → HasStartIndex one → HasStartIndex other →
        LieOutside (paths_of other) (files_of one) → LieOutside (paths_of one) (files_of other) →
        AreShards (paths_of one) (files_of one) (paths_of other) (files_of other) }
{}
