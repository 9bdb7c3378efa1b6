// What the user chooses of the files of a project.
ghost use Rattle.std.specs.Prelude.{◌≡◌, ◌+◌, ◌∷◌, [], map, string_bytes, length, is_some, true, false, IfOk};
ghost use Rattle.cs_tree.specs.CountsAtMost.{CountsAtMost};
ghost use Rattle.cs_listing.specs.Choices.{Settings, plain_settings, AddsGlob, AddsType, choice_of as choice_of', after, relative_to as relative_to', glob_choice, type_choice};
ghost use Rattle.cs_listing.specs.Types.{AddsGlobsOf, globs_among, file_types};
ghost use Rattle.cs_listing.specs.Layers.{last_name as last_name'};
ghost use Rattle.cs_listing.specs.MatchWork.{rules_work};
ghost use Rattle.cs_listing.specs.Models.{names, rules_in, chosen_in};

use crate::rules::{Decision, Rules};
use crate::types::globs_of;
use cs_tree::Steps;
use std::alloc::{AllocError, Global};

/// What the user chooses. All walks of a search have the same choices.
#[derive(Drop)]
pub struct Choices {
    alloc: Global,
    /// The rules of the user, for all repositories.
    pub(crate) user: Rules,
    pub(crate) takes_hidden: bool,
    pub(crate) takes_ignored: bool,
    /// The most names of a path below the folder where a walk begins.
    pub(crate) depth: usize,
    globs: Rules,
    /// The names of the folder that the globs are relative to.
    folder: Vec<String>,
    types: Rules,
}

impl Choices {
    /// All files that the rules of the user and of the project leave. Globs are relative to the
    /// folder with these names.
    pub fn new(alloc: Global, user: Rules, folder: Vec<String>) -> Choices
        ensures { chosen_in result ≡ plain_settings (rules_in user) (map string_bytes folder.items) }
    {
        Choices {
            alloc,
            user,
            takes_hidden: false,
            takes_ignored: false,
            depth: usize::MAX,
            globs: Rules::none(alloc),
            folder,
            types: Rules::none(alloc),
        }
    }

    /// Names that begin with a dot count outside of repositories too.
    pub fn take_hidden(&mut self)
        ensures { chosen_in self.new ≡ record (chosen_in self.old) { takes_hidden = true } }
    {
        self.takes_hidden = true;
    }

    /// Rule files count for nothing, and names that begin with a dot count.
    pub fn take_ignored(&mut self)
        ensures { chosen_in self.new ≡
            record (chosen_in self.old) { takes_hidden = true; takes_ignored = true } }
    {
        self.take_hidden();
        self.takes_ignored = true;
    }

    /// A path has at most so many names below the folder where a walk begins.
    pub fn limit_depth(&mut self, depth: usize)
        ensures { chosen_in self.new ≡ record (chosen_in self.old) { most_names = depth } }
    {
        self.depth = depth;
    }

    /// Adds a glob, which takes files, or leaves them out if it begins with `!`. The last glob that
    /// applies counts. With braces, as in `*.{c,h}`, it stands for several. False if the braces do
    /// not match, if it stands for more than 1,000, or if one of them can match nothing.
    pub fn add_glob(&mut self, glob: &str) -> Result<bool, AllocError>
        ensures { IfOk result
            (λ is_glob. AddsGlob glob.now is_glob (chosen_in self.old) (chosen_in self.new)) }
    {
        self.globs.add_globs(self.alloc, glob.as_bytes())
    }

    /// Takes the files of a type, or leaves them out. The last glob of a type that applies counts.
    /// False if there is no such type.
    pub fn add_type(&mut self, name: &str, is_left_out: bool) -> Result<bool, AllocError>
        ensures adds { IfOk result
            (λ is_type. AddsType is_type is_left_out (chosen_in self.old) (chosen_in self.new)) }
        ensures globs { IfOk result (λ is_type. AddsGlobsOf (globs_among file_types name.now)
            is_left_out is_type (chosen_in self.old) (chosen_in self.new)) }
    {
        let Some(globs) = globs_of(name) else {
            return Ok(false);
        };
        let decision = if is_left_out {
            Decision::TakeBack
        } else {
            Decision::Ignore
        };
        self.types.add_all(self.alloc, decision, globs.as_bytes())?;
        Ok(true)
    }

    /// Whether the globs take a path.
    pub(crate) fn by_globs(
        &self,
        path: &[&[u8]],
        is_folder: bool,
        steps: &mut Steps,
    ) -> Option<bool>
        ensures choice { result ≡ glob_choice (chosen_in self.now) is_folder (names path.now) }
        ensures work { CountsAtMost (rules_work (chosen_in self.now).globs
            (relative_to' (chosen_in self.now).folder (names path.now))) steps.old steps.new }
    {
        choice_of(
            &self.globs,
            relative_to(&self.folder, path),
            is_folder,
            steps,
        )
    }

    /// Whether the types take a name. They say nothing of folders.
    pub(crate) fn by_types(&self, name: &[u8], is_folder: bool, steps: &mut Steps) -> Option<bool>
        ensures choice { result ≡ type_choice (chosen_in self.now) is_folder name.now }
        ensures work { CountsAtMost
            (rules_work (chosen_in self.now).types (name.now ∷ [])) steps.old steps.new }
    {
        if is_folder {
            return None;
        }
        choice_of(&self.types, &[name], false, steps)
    }
}

/// Whether globs take a path.
fn choice_of(globs: &Rules, path: &[&[u8]], is_folder: bool, steps: &mut Steps) -> Option<bool>
    ensures choice { result ≡ choice_of' (rules_in globs.now) is_folder (names path.now) }
    ensures work { CountsAtMost (rules_work (rules_in globs.now) (names path.now)) steps.old steps.new }
{
    match globs.decide(path, is_folder, steps) {
        Some(decision) => Some(decision.is_ignore()),
        None if !is_folder && globs.ignores_some() => Some(false),
        None => None,
    }
}

/// The path below a folder, or from `/` on if it is not below it.
fn relative_to<'p, 'n>(folder: &[String], path: &'p [&'n [u8]]) -> &'p [&'n [u8]]
    ensures { names result.now ≡ relative_to' (map string_bytes folder.now) (names path.now) }
{
    if is_below(folder, path) {
        &path[folder.len()..]
    } else {
        path
    }
}

/// Whether a path is below a folder, or is the folder.
fn is_below(folder: &[String], path: &[&[u8]]) -> bool
    ensures { result ≡ is_some (after (map string_bytes folder.now) (names path.now)) }
{
    for at in 0..folder.len() {
        if at >= path.len() || *folder[at].as_bytes() != *path[at] {
            return false;
        }
    }
    true
}
