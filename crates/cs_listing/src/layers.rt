// What all rule files along a path say together.
ghost use Rattle.std.specs.Prelude.{◌≡◌, ◌≤◌, ◌++◌, [], ◌∷◌, drop, length, IfOk, OnOk, OnErr, IfSome, IsSome, is_some, ◌↔◌, ◌<◌, ◌+◌, ◌-◌, ◌||◌};
ghost use Rattle.std.specs.Option.{option_to_list};
ghost use Rattle.cs_tree.specs.CountsAtMost.{CountsAtMost};
ghost use Rattle.cs_listing.specs.RuleFileReads.{most_rule_bytes};
ghost use Rattle.cs_listing.specs.RuleTexts.{bytes_of_texts, folder_of_texts};
ghost use Rattle.cs_listing.specs.Layers.{without_rules, rule_bytes, room_after as room_after', rules_at, deepest as deepest', repository_of as repository_of', repository_says, says as says', last_name as last_name', said_of, is_out_by_rules as is_out_by_rules', is_left_out as is_left_out'};
ghost use Rattle.cs_listing.specs.Choices.{Settings, is_too_deep as is_too_deep'};
ghost use Rattle.cs_listing.specs.MatchWork.{rules_work};
ghost use Rattle.cs_listing.specs.LayersWork.{files_work, repository_work};
ghost use Rattle.cs_listing.specs.Models.{names, names_in, rules_in, folder_of, folders_of, folders_in, chosen_in, settings_of, KeepsChoices, IsInDeepest, work_for, left_out_work, repository_in};

use crate::choices::Choices;
use crate::classes::begins_with;
use crate::rules::{Decision, Rules};
use cs_tree::Steps;
use std::alloc::{AllocError, Global};
use std::marker::Model;

/// The rule files of a folder. A file that is not there is one without rules.
#[derive(Drop)]
pub struct FolderRules {
    /// The name of the folder; of `/` it counts nowhere.
    pub name: String,
    /// The rules of `.ignore`, which come before all others.
    pub ignore: Rules,
    /// The rules of `.gitignore`.
    pub gitignore: Rules,
    /// If a repository begins here, the rules of its `info/exclude`.
    pub exclude: Option<Rules>,
    /// The bytes of these files.
    pub bytes: usize,
}

/// The most bytes of all rule files along a path.
const MOST_RULE_BYTES: usize = 1 << 20;

/// The bytes of the rule files of a folder.
#[derive(Drop)]
pub(crate) struct RuleTexts {
    pub(crate) ignore: Vec<u8>,
    pub(crate) gitignore: Vec<u8>,
    pub(crate) exclude: Option<Vec<u8>>,
    /// How many they are.
    pub(crate) bytes: usize,
}

/// The rule files that may stand in each folder.
#[derive(Clone, Copy)]
enum RuleFile {
    Ignore,
    Gitignore,
}

/// The repository that a path is in.
#[derive(Clone, Copy)]
struct Repository<'f, 'p, 'n> {
    exclude: &'f Rules,
    /// Its root, and the folders below it along the path.
    folders: &'f [FolderRules],
    /// The path below its root.
    path: &'p [&'n [u8]],
}

/// The rule files that count in a folder: those of the folders along its path, the topmost first. A
/// path is given by its elements below the topmost folder, so it has one name for each folder: the
/// last one is that of an entry of the deepest folder.
#[derive(Drop)]
pub struct Layers<'a> {
    folders: Vec<FolderRules>,
    choices: &'a Choices,
    /// The most names of a path.
    most_names: usize,
}

impl FolderRules {
    /// A folder whose rule files count for nothing. A repository may begin in it.
    pub(crate) fn without_rules(alloc: Global, name: String, is_root: bool) -> FolderRules
        ensures rules { folder_of result ≡ without_rules is_root }
        ensures name { result.name ≡ name }
    {
        FolderRules {
            name,
            ignore: Rules::none(alloc),
            gitignore: Rules::none(alloc),
            exclude: if is_root {
                Some(Rules::none(alloc))
            } else {
                None
            },
            bytes: 0,
        }
    }

    /// A folder with these rule files.
    pub(crate) fn parse(
        alloc: Global,
        name: String,
        texts: &RuleTexts,
    ) -> Result<FolderRules, AllocError>
        ensures rules { IfOk result (λ folder. texts.now.bytes ≡ bytes_of_texts texts.now →
            folder_of folder ≡ folder_of_texts texts.now) }
        ensures name { IfOk result (λ folder. folder.name ≡ name) }
    {
        let ignore = Rules::parse(alloc, &texts.ignore)?;
        let gitignore = Rules::parse(alloc, &texts.gitignore)?;
        let exclude = match &texts.exclude {
            Some(bytes) => Some(Rules::parse(alloc, bytes)?),
            None => None,
        };
        Ok(FolderRules {
            name,
            ignore,
            gitignore,
            exclude,
            bytes: texts.bytes,
        })
    }

    fn rules(&self, file: RuleFile) -> &Rules
        ensures { rules_in result.now ≡ rules_at file (folder_of self.now) }
    {
        match file {
            RuleFile::Ignore => &self.ignore,
            RuleFile::Gitignore => &self.gitignore,
        }
    }
}

/// The bytes that are left after the rule files of folders.
fn room_after(folders: &[FolderRules]) -> usize
    ensures { result ≡ most_rule_bytes - rule_bytes (folders_of folders.now) }
{
    let mut room = MOST_RULE_BYTES;
    'folders: for folder in folders {
        room = room.saturating_sub(folder.bytes);
    }
    room
}

/// What the files of this kind say: that of the deepest folder whose file says anything.
fn deepest(
    file: RuleFile,
    folders: &[FolderRules],
    path: &[&[u8]],
    is_folder: bool,
    steps: &mut Steps,
) -> Option<Decision>
    requires { length folders.now ≤ length path.now }
    ensures says { result ≡ deepest' file is_folder (folders_of folders.now) (names path.now) }
    ensures work { CountsAtMost (files_work file (folders_of folders.now) (names path.now))
        steps.old steps.new }
{
    let mut upper = folders;
    'folders: while let Some((folder, above)) = upper.split_last() {
        let said = folder
            .rules(file)
            .decide(&path[above.len()..], is_folder, steps);
        if said.is_some() {
            return said;
        }
        upper = above;
    }
    None
}

/// The repository that a path is in.
fn repository_of<'f, 'p, 'n>(
    folders: &'f [FolderRules],
    path: &'p [&'n [u8]],
) -> Option<Repository<'f, 'p, 'n>>
    requires { length folders.now ≤ length path.now }
    ensures found { repository_of' (folders_of folders.now) (names path.now) ≡ repository_in result }
    ensures within { IfSome result (λ at. length at.folders.now ≤ length at.path.now) }
{
    let mut upper = folders;
    'folders: while let Some((folder, above)) = upper.split_last() {
        if let Some(exclude) = &folder.exclude {
            return Some(Repository {
                exclude,
                folders: &folders[above.len()..],
                path: &path[above.len()..],
            });
        }
        upper = above;
    }
    None
}

impl Repository<'_, '_, '_> {
    fn says(&self, global: &Rules, is_folder: bool, steps: &mut Steps) -> Option<Decision>
        requires { length self.now.folders.now ≤ length self.now.path.now }
        ensures says { result
            ≡ repository_says (rules_in global.now) is_folder (repository_in (Some self.now)) }
        ensures work { CountsAtMost (repository_work (rules_in global.now) (repository_in (Some self.now)))
            steps.old steps.new }
    {
        let said = deepest(
            RuleFile::Gitignore,
            self.folders,
            self.path,
            is_folder,
            steps,
        );
        if said.is_some() {
            return said;
        }
        let said = self.exclude.decide(self.path, is_folder, steps);
        if said.is_some() {
            return said;
        }
        global.decide(self.path, is_folder, steps)
    }
}

/// The last name of a path.
pub(crate) fn last_name<'n>(path: &[&'n [u8]]) -> &'n [u8]
    ensures { result.now ≡ last_name' (names path.now) }
{
    match path.split_last() {
        Some((name, _)) => *name,
        None => &[],
    }
}

impl<'a> Layers<'a> {
    /// The layers of no folder, for paths of at most so many names.
    pub fn new(alloc: Global, choices: &'a Choices, most_names: usize) -> Layers<'a>
        ensures folders { folders_in result ≡ [] }
        ensures settings { settings_of result ≡ record (chosen_in choices.now) { most_names = most_names } }
    {
        Layers {
            folders: Vec::new(alloc),
            choices,
            most_names,
        }
    }

    /// Enters a folder of the deepest one.
    pub fn enter(&mut self, folder: FolderRules) -> Result<(), AllocError>
        ensures entered { OnOk result
            (folders_in self.new ≡ folders_in self.old ++ folder_of folder ∷ []) }
        ensures unchanged { OnErr result (folders_in self.new ≡ folders_in self.old) }
        ensures all { OnOk result (self.new.folders.items ≡ self.old.folders.items ++ folder ∷ []) }
        ensures choices { KeepsChoices self.old self.new }
    {
        self.folders.push(folder)?;
        Ok(())
    }

    /// Leaves the deepest folder, if there is one.
    pub fn leave(&mut self) -> Option<FolderRules>
        ensures left { folders_in self.old ≡ folders_in self.new ++ folders_of (option_to_list result) }
        ensures some { IsSome result ↔ (0 < length (folders_in self.old)) }
        ensures all { self.old.folders.items ≡ self.new.folders.items ++ option_to_list result }
        ensures choices { KeepsChoices self.old self.new }
    {
        self.folders.pop()
    }

    /// The bytes that are left for the rule files of a folder of the deepest one, if they count.
    pub(crate) fn room(&self) -> Option<usize>
        ensures { result ≡ room_after' (settings_of self.now).takes_ignored (folders_in self.now) }
    {
        if !self.choices.takes_ignored {
            return Some(room_after(&self.folders));
        }
        None
    }

    /// The names of the folders below the topmost one: the path of the deepest folder.
    pub(crate) fn names(&self, alloc: Global) -> Result<Vec<&[u8]>, AllocError>
        ensures { IfOk result (λ path. names path.items ≡ names_in self.now) }
    {
        let mut path = Vec::new(alloc);
        let below = self.below();
        'folders: for folder in below {
            path.push(folder.name.as_bytes())?;
        }
        Ok(path)
    }

    /// The folders below the topmost one.
    fn below(&self) -> &[FolderRules]
        ensures { result.now ≡ drop 1 self.now.folders.items }
    {
        match self.folders.split_first() {
            Some((_, below)) => below,
            None => &[],
        }
    }

    /// What all rule files along a path say of it.
    pub fn says(&self, path: &[&[u8]], is_folder: bool, steps: &mut Steps) -> Option<Decision>
        requires { IsInDeepest self.now path.now }
        ensures says { result ≡ says' (settings_of self.now).global is_folder (folders_in self.now)
            (names path.now) }
        ensures work { CountsAtMost (work_for self.now path.now) steps.old steps.new }
    {
        let said = deepest(RuleFile::Ignore, &self.folders, path, is_folder, steps);
        if said.is_some() {
            return said;
        }
        let repository = repository_of(&self.folders, path)?;
        repository.says(&self.choices.user, is_folder, steps)
    }

    /// Whether a path is left out.
    pub fn is_left_out(&self, path: &[&[u8]], is_folder: bool, steps: &mut Steps) -> bool
        requires { IsInDeepest self.now path.now }
        ensures left_out { result ≡ is_left_out' (settings_of self.now) is_folder (folders_in self.now)
            (names path.now) }
        ensures work { CountsAtMost (left_out_work self.now path.now) steps.old steps.new }
    {
        if last_name(path) == b".git".as_slice() || self.is_too_deep(path, is_folder) {
            return true;
        }
        match self.choices.by_globs(path, is_folder, steps) {
            Some(is_taken) => !is_taken,
            None => self.is_out_by_rules(path, is_folder, steps),
        }
    }

    /// Whether a path has more names than the user wants, or is a folder whose entries have.
    fn is_too_deep(&self, path: &[&[u8]], is_folder: bool) -> bool
        ensures { result ≡ is_too_deep' (settings_of self.now).most_names is_folder (names path.now) }
    {
        if is_folder {
            path.len() >= self.most_names
        } else {
            path.len() > self.most_names
        }
    }

    /// Whether a path is left out if no glob says anything of it.
    fn is_out_by_rules(&self, path: &[&[u8]], is_folder: bool, steps: &mut Steps) -> bool
        requires { IsInDeepest self.now path.now }
        ensures left_out { result ≡ is_out_by_rules' (settings_of self.now) is_folder (folders_in self.now)
            (names path.now) }
        ensures work { CountsAtMost (rules_work (settings_of self.now).types
            (last_name' (names path.now) ∷ [])
            + work_for self.now path.now) steps.old steps.new }
    {
        let said = self.said(path, is_folder, steps);
        if said == Some(Decision::Ignore) {
            return true;
        }
        let name = last_name(path);
        match self.choices.by_types(name, is_folder, steps) {
            Some(is_taken) => !is_taken,
            None => said.is_none() && begins_with(b'.', name) && !self.takes_hidden_in(path),
        }
    }

    /// What all rule files along a path say of it, if they count.
    fn said(&self, path: &[&[u8]], is_folder: bool, steps: &mut Steps) -> Option<Decision>
        requires { IsInDeepest self.now path.now }
        ensures said { result ≡
            said_of (settings_of self.now) is_folder (folders_in self.now) (names path.now) }
        ensures work { CountsAtMost (work_for self.now path.now) steps.old steps.new }
    {
        if self.choices.takes_ignored {
            return None;
        }
        self.says(path, is_folder, steps)
    }

    /// Whether a name that begins with a dot counts.
    fn takes_hidden_in(&self, path: &[&[u8]]) -> bool
        requires { IsInDeepest self.now path.now }
        ensures { result ≡ ((settings_of self.now).takes_hidden
            || is_some (repository_of' (folders_in self.now) (names path.now))) }
    {
        self.choices.takes_hidden || repository_of(&self.folders, path).is_some()
    }
}
