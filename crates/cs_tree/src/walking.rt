// Walks: depth-first traversal of folders with an explicit stack.
ghost use Rattle.std.specs.Prelude.{◌≡◌, ◌≢◌, ◌≤◌, ◌++◌, ℕ, List, [], ◌∷◌, true, map, string_bytes, OnOk, IfOk, MatchResult, Contains, IsPermutation, ◌<◌, ◌^◌, length, nat_eq, codes};
ghost use Rattle.cs_tree.specs.Folders.{child, are_elements, last_element as last_element'};
ghost use Rattle.cs_tree.specs.Clean.{longest_path};
ghost use Rattle.cs_tree.specs.ReadsNothing.{ReadsNothing};
ghost use Rattle.cs_tree.specs.NamesAscending.{are_ascending};
ghost use Rattle.cs_tree.specs.Walks.{RequestsWithin, FindsIn, FaultEntry, CountsFaults, are_alone, failures_walked, is_among, fault_entry, fault_paths, names_walked, faults_walked, AreWithinPathLimit};
ghost use Rattle.cs_tree.specs.PathSet as set;
ghost use Rattle.cs_tree.specs.Reachability.{reaches, is_reachable, is_excluded as is_excluded'};
ghost use Rattle.std.specs.List.{AllByRecursion, ends_with};
ghost use Rattle.cs_tree.specs.Cover.{covers, is_covered};
ghost use Rattle.cs_tree.specs.WalkSteps.{GathersIn, AreFaultsDistinct, KeepsCount, KeepsTo, AddsFewFaults, IsStatusIn, CountsStatus, IsEntered, LooksUp, descends_to, is_file_seen, fault_seen, names_seen, children, named_if, fault_if, is_walked as is_walked', KeepsPathLimit};

use crate::fault::TreeFault;
use crate::paths::{LONGEST_PATH, order_names};
use crate::tree::{Kind, Listing, Tree};
use std::alloc::{AllocError, Global};

/// Why a walk could not read a path.
#[derive(Clone, Copy, Debug, PartialEq, Eq)]
pub enum WalkFault {
    /// A call of the tree failed. The error is not `TreeFault::Memory`.
    Tree(TreeFault),
    /// A folder has an entry whose name is not text. Its other entries are walked.
    Unnamed,
    /// The path has more than 4095 bytes. The tree is not called with it.
    TooLong,
}

/// The result of a walk.
#[derive(Drop)]
pub struct Walked {
    /// The paths of the files, ascending.
    pub names: Vec<String>,
    /// The paths that could not be read, ascending, each with the reason.
    pub faults: Vec<(String, WalkFault)>,
}

/// The result of looking a path up.
#[derive(Drop)]
enum PathStatus {
    File,
    Folder(Listing),
    /// Neither of these, such as a symbolic link.
    Other,
    /// The path could not be read.
    Unreadable(WalkFault),
}

/// The files at the given paths and below them. A name that begins with `.`, `#` or `~`, or ends
/// with `~`, is excluded, both as the last element of a given path and as an entry of a folder. The
/// given paths may be in any order and may cover each other. Each path is looked up once, and each
/// folder is listed once, for each given path that covers it. If no given path covers another one
/// or is given twice, each failed call has an entry in `faults`. The tree is not called with a path
/// of more than 4095 bytes. The only error is an allocation failure, here or in the tree.
pub fn walk<T: Tree>(alloc: Global, tree: &mut T, paths: &[String]) -> Result<Walked, AllocError>
    ensures finds { IfOk result (λ walked. FindsIn (T.snapshot tree.old)
        (set.from_list (map string_bytes paths.now)) (names_walked walked) (faults_walked walked)) }
    ensures under { IfOk result (λ walked. AllByRecursion
        (λ name. is_covered (set.from_list (map string_bytes paths.now)) name ≡ true)
        (names_walked walked)) }
    ensures path_limit { IfOk result (λ walked. AreWithinPathLimit (names_walked walked)) }
    ensures names_ascend { IfOk result (λ walked. are_ascending (names_walked walked) ≡ true) }
    ensures faults_ascend { IfOk result
        (λ walked. are_ascending (fault_paths (faults_walked walked)) ≡ true) }
    ensures counted { IfOk result
        (λ walked. CountsFaults (faults_walked walked) (T.failed tree.old) (T.failed tree.new)) }
    ensures no_failure { IfOk result
        (λ walked. faults_walked walked ≡ [] → T.failed tree.new ≡ T.failed tree.old) }
    ensures complete { IfOk result (λ walked. are_alone (map string_bytes paths.now) ≡ true →
        T.failed tree.new ≡ failures_walked (faults_walked walked) (T.failed tree.old)) }
    ensures rises { T.failed tree.old ≤ T.failed tree.new }
    ensures requested { RequestsWithin longest_path
        (T.longest_requested tree.old) (T.longest_requested tree.new) }
    ensures counts { ReadsNothing (T.read_counts tree.old) (T.read_counts tree.new) }
    ensures keeps { T.snapshot tree.new ≡ T.snapshot tree.old }
{
    let mut walked = Walked {
        names: Vec::new(alloc),
        faults: Vec::new(alloc),
    };
    visit_all(alloc, tree, paths, &mut walked)?;
    order_names(&mut walked.names);
    order_faults(&mut walked.faults);
    Ok(walked)
}

/// Walks each path, unless its last element is excluded.
fn visit_all<T: Tree>(
    alloc: Global,
    tree: &mut T,
    paths: &[String],
    walked: &mut Walked,
) -> Result<(), AllocError>
    ensures gathers { OnOk result (GathersIn (T.snapshot tree.old)
        (λ model. is_reachable model (set.from_list (map string_bytes paths.now)))
        walked.old walked.new) }
    ensures under { OnOk result
        (KeepsTo (is_covered (set.from_list (map string_bytes paths.now))) walked.old walked.new) }
    ensures path_limit { OnOk result (KeepsPathLimit walked.old walked.new) }
    ensures counted { OnOk result
        (KeepsCount (T.failed tree.old) (T.failed tree.new) walked.old walked.new) }
    ensures once { OnOk result (AddsFewFaults (map string_bytes paths.now) walked.old walked.new) }
    ensures tree { LooksUp T.snapshot T.failed T.longest_requested T.read_counts tree.old tree.new }
{
    'paths: for path in paths {
        visit_named(alloc, tree, path.as_str(), walked)?;
    }
    Ok(())
}

/// Walks a path, unless its last element is excluded.
fn visit_named<T: Tree>(
    alloc: Global,
    tree: &mut T,
    path: &str,
    walked: &mut Walked,
) -> Result<(), AllocError>
    ensures gathers { OnOk result (GathersIn (T.snapshot tree.old)
        (λ model. reaches model path.now) walked.old walked.new) }
    ensures under { OnOk result (KeepsTo (covers path.now) walked.old walked.new) }
    ensures path_limit { OnOk result (KeepsPathLimit walked.old walked.new) }
    ensures counted { OnOk result
        (KeepsCount (T.failed tree.old) (T.failed tree.new) walked.old walked.new) }
    ensures once { OnOk result (AddsFewFaults (path.now ∷ []) walked.old walked.new) }
    ensures tree { LooksUp T.snapshot T.failed T.longest_requested T.read_counts tree.old tree.new }
{
    if is_excluded(last_element(path)) {
        return Ok(());
    }
    visit(alloc, tree, String::from_str(alloc, path)?, walked)
}

/// Collects the files at a path and below it. Pending paths are on an explicit stack, so that the
/// depth of the tree does not matter for the call stack.
fn visit<T: Tree>(
    alloc: Global,
    tree: &mut T,
    start: String,
    walked: &mut Walked,
) -> Result<(), AllocError>
    ensures gathers { OnOk result (GathersIn (T.snapshot tree.old)
        (λ model. descends_to model (string_bytes start)) walked.old walked.new) }
    ensures under { OnOk result (KeepsTo (covers (string_bytes start)) walked.old walked.new) }
    ensures path_limit { OnOk result (KeepsPathLimit walked.old walked.new) }
    ensures counted { OnOk result
        (KeepsCount (T.failed tree.old) (T.failed tree.new) walked.old walked.new) }
    ensures once { OnOk result (AddsFewFaults (string_bytes start ∷ []) walked.old walked.new) }
    ensures tree { LooksUp T.snapshot T.failed T.longest_requested T.read_counts tree.old tree.new }
{
    let mut pending = Vec::new(alloc);
    pending.push(start)?;
    'pending: while let Some(path) = pending.pop() {
        let status = stat_path(alloc, tree, path.as_str())?;
        walked.note(alloc, path, status, &mut pending)?;
    }
    Ok(())
}

/// Looks the path up, and lists it if it is a folder.
fn stat_path<T: Tree>(alloc: Global, tree: &mut T, path: &str) -> Result<PathStatus, AllocError>
    ensures shows { IfOk result (λ status. IsStatusIn (T.snapshot tree.old) path.now status) }
    ensures names { IfOk result (λ status. are_elements (names_seen status) ≡ true) }
    ensures entered { IfOk result (λ status. IsEntered path.now status) }
    ensures counted { IfOk result
        (λ status. CountsStatus status (T.failed tree.old) (T.failed tree.new)) }
    ensures tree { LooksUp T.snapshot T.failed T.longest_requested T.read_counts tree.old tree.new }
{
    if path.len() > LONGEST_PATH {
        return Ok(PathStatus::Unreadable(WalkFault::TooLong));
    }
    match tree.kind(path) {
        Ok(Kind::Folder) => match tree.entries(alloc, path) {
            Ok(listing) => Ok(PathStatus::Folder(listing)),
            Err(fault) => unreadable_for(fault),
        },
        Ok(Kind::File) => Ok(PathStatus::File),
        Ok(Kind::Other) => Ok(PathStatus::Other),
        Err(fault) => unreadable_for(fault),
    }
}

/// Maps an error of the tree: an allocation failure ends the walk, any other one is recorded.
fn unreadable_for(fault: TreeFault) -> Result<PathStatus, AllocError>
    ensures { MatchResult result
        (λ status. (fault ≢ TreeFault.Memory)
        × (status ≡ PathStatus.Unreadable (WalkFault.Tree fault)))
        (λ _. fault ≡ TreeFault.Memory) }
{
    match fault {
        TreeFault::Memory => Err(AllocError),
        fault => Ok(PathStatus::Unreadable(WalkFault::Tree(fault))),
    }
}

impl Walked {
    /// Records the status of a path, and pushes its children on the stack.
    fn note(
        &mut self,
        alloc: Global,
        path: String,
        status: PathStatus,
        pending: &mut Vec<String>,
    ) -> Result<(), AllocError>
        ensures names { OnOk result (names_walked self.new
            ≡ names_walked self.old ++ named_if (is_file_seen status) (string_bytes path)) }
        ensures faults { OnOk result (faults_walked self.new
            ≡ faults_walked self.old ++ fault_if (fault_seen status) (string_bytes path)) }
        ensures pending { OnOk result (map string_bytes pending.new.items
            ≡ map string_bytes pending.old.items
            ++ children (string_bytes path) (names_seen status)) }
        ensures bound { OnOk result
            (length (children (string_bytes path) (names_seen status)) < 2 ^ 64) }
    {
        match status {
            PathStatus::File => self.names.push(path)?,
            PathStatus::Folder(listing) => {
                push_children(alloc, path.as_str(), &listing.names, pending)?;
                if listing.unnamed {
                    self.faults.push((path, WalkFault::Unnamed))?;
                }
            }
            PathStatus::Other => {}
            PathStatus::Unreadable(fault) => self.faults.push((path, fault))?,
        }
        Ok(())
    }
}

/// Pushes the paths of a folder's entries on the stack, except the excluded ones.
fn push_children(
    alloc: Global,
    folder: &str,
    names: &[String],
    pending: &mut Vec<String>,
) -> Result<(), AllocError>
    ensures pending { OnOk result (map string_bytes pending.new.items
        ≡ map string_bytes pending.old.items ++ children folder.now (map string_bytes names.now)) }
    ensures bound { OnOk result
        (length (children folder.now (map string_bytes names.now)) < 2 ^ 64) }
{
    'names: for name in names {
        if is_walked(name.as_str()) {
            pending.push(child_path(alloc, folder, name.as_str())?)?;
        }
    }
    Ok(())
}

/// The path of a folder's entry.
fn child_path(alloc: Global, folder: &str, name: &str) -> Result<String, AllocError>
    ensures { IfOk result (λ path. string_bytes path ≡ child folder.now name.now) }
{
    // A walk keeps the path of each file, so none has more memory than it needs.
    let mut path = String::with_capacity(alloc, folder.len() + 1 + name.len())?;
    if folder != "/" {
        path.push_str(folder)?;
    }
    path.push('/')?;
    path.push_str(name)?;
    Ok(path)
}

/// Whether a walk visits an entry. An excluded name is not visited, and neither is an empty one, so
/// that a child's path is longer than its folder's.
fn is_walked(name: &str) -> bool
    ensures { result ≡ is_walked' name.now }
{
    !name.is_empty() && !is_excluded(name)
}

/// Whether a name begins with `.`, `#` or `~`, or ends with `~`.
fn is_excluded(name: &str) -> bool
    ensures { result ≡ is_excluded' name.now }
{
    match name.as_bytes().first() {
        Some(b'.' | b'#' | b'~') => true,
        Some(_) => ends_in_tilde(name),
        None => false,
    }
}

fn ends_in_tilde(name: &str) -> bool
    ensures { result ≡ ends_with nat_eq name.now (codes "~") }
{
    match name.as_bytes().last() {
        Some(byte) => *byte == b'~',
        None => false,
    }
}

/// The last element: the text after the last slash.
fn last_element(path: &str) -> &str
    ensures { result.now ≡ last_element' path.now }
{
    match path.rsplit_once('/') {
        Some((_, name)) => name,
        None => path,
    }
}

/// Sorts faults by their paths, and keeps one for each path.
fn order_faults(faults: &mut Vec<(String, WalkFault)>)
    ensures ascend { are_ascending (fault_paths (map fault_entry faults.new.items)) ≡ true }
    ensures same { (path : List ℕ) → is_among (fault_paths (map fault_entry faults.new.items)) path
        ≡ is_among (fault_paths (map fault_entry faults.old.items)) path }
    ensures kept { (left : FaultEntry) → Contains (map fault_entry faults.new.items) left
        → Contains (map fault_entry faults.old.items) left }
    ensures whole { AreFaultsDistinct (map fault_entry faults.old.items)
        → IsPermutation (map fault_entry faults.old.items) (map fault_entry faults.new.items) }
{
    faults.sort_unstable_by(|a, b| a.0.cmp(&b.0));
    faults.dedup_by(|a, b| a.0 == b.0);
}
