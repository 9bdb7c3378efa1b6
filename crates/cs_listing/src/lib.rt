//! Which files are a project's: those that no rule file leaves out, as gitignore(5) says. Read
//! `specs/Globs.antt`, `specs/Rules.antt` and `specs/Layers.antt` first: the rules of one file, and
//! what the rule files of all folders along a path say together; then `specs/RuleFiles.antt`: how
//! the bytes of a rule file are read. `specs/Listing.antt` says which files of a tree a search of a
//! folder lists, and `specs/Unreadable.antt` which paths it cannot read; `specs/Walk.antt` and
//! `specs/ReportsAll.antt` say what the walk gives that finds both, call by call, and
//! `specs/WholeWalks.antt` what it gives from its beginning to its end, `specs/Stamps.antt` which
//! stamps its files have. `specs/UserRules.antt` says which rules a user has for all repositories,
//! by `specs/Settings.antt`, what a text of git's settings says; `specs/Types.antt` which types of
//! files there are.
//!
//! A *glob* is a list of elements, one for each name of a path, or `**` for any number of folders;
//! an element is a list of tokens; the token `*` takes any bytes. A rule without a slash begins
//! with `**`, and a `**` at the end is `**/*`, so there is one kind of match. Matching is greedy,
//! without backtracking: after a mismatch only the last `*` of a name takes more, up to the next
//! byte that may match the token after it, and only the last `**` of a path takes one name more.
//! The invariant says why that is enough: what an earlier star could match, the last one can match
//! too. Only rules are tried whose marks the last name has, which are bits for bytes
//! (`specs/Marks.antt`), and the last element of each comes first, from its end up to its last
//! star. A class that does not end matches nothing, and takes the rest of its rule, so that each
//! byte is read a bounded number of times. A path is given by its names below the folder of the
//! rules, so that a walk can pass a suffix of its stack of names.
//!
//! `Layers` is a stack of the folders from the topmost down to one that is walked, each with the
//! rules of its `.ignore` and its `.gitignore`, and those of `info/exclude` where a repository
//! begins, in the folder that `.git` is or names and that has what git asks for
//! (`specs/GitFolders.antt`). A walk enters a folder and leaves it. What is asked about is an entry
//! of the deepest folder, by the names along its path: the rules of the first folder see all of
//! them, those of the second all but the first, and so on. Each kind of file is asked from the
//! deepest folder up, and the first that says anything counts. Whether a path is left out does not
//! depend on where a walk began, but only on the folders above. The walk does not enter a folder
//! that is left out.
//!
//! `Choices` are those of the user (`specs/Choices.antt`): globs and types are rules too, with the
//! meaning turned round, so that they take files; a glob may have braces (`specs/Braces.antt`). A
//! glob comes before all rule files, a type after them. A depth is a limit of the names of a path,
//! so whether a path is left out still does not depend on the walk.
//!
//! `Walk` has two stacks: `Layers`, the rule files of the folders from `/` down, and frames, the
//! entries of the open folders that are still to come, the next one last. `begin` lists each folder
//! along the path of the start for its rule files, and opens the last; in one that cannot be listed
//! they are looked up by name, and the start is reported. `next` takes the last entry of the last
//! frame: a file is given; a folder is listed, its rule files are read, its names are asked about
//! (`entries.rt`), what is not left out is looked at once, and the rest is sorted by names, with a
//! slash after those of folders, which is byte order of whole paths. `specs/Walk.antt` says which
//! files are to come by the frames, so the invariant needs no list of all files: each step keeps
//! the set, or takes its first. What cannot be read is noted by `FolderReader`, and each path is
//! given once, before the next file; the paths that are noted, were given, or are below an entry
//! that is to come stay the same.
#![tactic(auto)]

mod braces;
mod choices;
mod class_names;
mod classes;
mod entries;
mod fault;
mod git_folders;
mod glob;
mod glob_parsing;
pub mod laws;
mod layers;
mod marks;
mod paths;
mod rule_lines;
mod rules;
mod settings_text;
mod types;
mod user_settings;
mod walk;
mod whole_files;

pub use choices::Choices;
pub use fault::{ListFault, Unread};
pub use git_folders::{FoundRepository, repository_above};
pub use layers::{FolderRules, Layers};
pub use paths::path_names;
pub use rules::{Decision, Rules};
pub use types::TYPES;
pub use user_settings::{UserFiles, UserRules, user_rules};
pub use walk::{File, Found, Walk};
