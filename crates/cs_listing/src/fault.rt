// What of a tree cannot be read.
use cs_tree::TreeFault;

/// Why a path could not be read.
#[derive(Clone, Copy, Debug, PartialEq, Eq)]
pub enum ListFault {
    /// A call of the tree failed. The error is not `TreeFault::Memory`.
    Tree(TreeFault),
    /// A folder has an entry whose name is not text. Its other entries are listed.
    Unnamed,
    /// The path of an entry has more than 4095 bytes. The entry is not looked at.
    LongPath,
    /// A rule file has more than 1 MB. It counts as one without rules.
    LongRules,
    /// The rule files along a path have more than 1 MB with this one. It counts as one without
    /// rules.
    ManyRules,
}

/// A path that could not be read.
#[derive(Drop)]
pub struct Unread {
    pub path: String,
    pub fault: ListFault,
}
