// The rules of a user for all repositories, in the file that git's settings name.
ghost use Rattle.std.specs.Prelude.{◌≡◌, ◌<◌, IfOk, OnOk, string_bytes};
ghost use Rattle.cs_listing.specs.Reading.{lent};
ghost use Rattle.cs_listing.specs.Models.{rules_in};
ghost use Rattle.cs_listing.specs.GitFolders.{bytes_of_item};
ghost use Rattle.cs_listing.specs.FolderReads.{InTree};
ghost use Rattle.cs_listing.specs.ReportsAll.{unread_paths, Notes};
ghost use Rattle.cs_listing.specs.Settings.{said_in as said_in'};
ghost use Rattle.cs_listing.specs.SettingReads.{text_if, directive_read, said_read, found_in, Finds, ReadsDirective};
ghost use Rattle.cs_listing.specs.UserRules.{user_of, expanded as expanded', stem_of_file as stem_of_file', path_in_file as path_in_file', pattern_in_file as pattern_in_file', anchored as anchored', matches_rule as matches_rule', holds as holds', noted, refused, with_file, after_file, after_settings, rules_file, rules_from, unread_at, user_rules as user_rules', unread_settings};

use crate::classes::begins_with;
use crate::entries::{FolderReader, child_path};
use crate::fault::{ListFault, Unread};
use crate::paths::path_names;
use crate::rules::Rules;
use crate::settings_text::{Directive, Said, said_in};
use cs_tree::{Look, Steps, TreeFault};
use std::alloc::{AllocError, Global};

/// The most files of settings that are read.
const MOST_FILES: usize = 1000;

/// How deep files of settings include one another.
const MOST_DEPTH: usize = 10;

/// Where the settings of a user are.
#[derive(Clone, Copy)]
pub struct UserFiles<'u> {
    pub home: &'u str,
    /// `.config` in the user's folder, or another one.
    pub config: &'u str,
    /// The value of GIT_CONFIG_GLOBAL, if it is set.
    pub global: Option<&'u str>,
}

/// The rules of a user for all repositories.
#[derive(Drop)]
pub struct UserRules {
    pub rules: Rules,
    /// The files that could not be read, or that have a bad line.
    pub unread: Vec<Unread>,
}

/// What is read of the settings of a user.
#[derive(Drop)]
struct FoundSettings {
    alloc: Global,
    reader: FolderReader,
    /// The last value of `core.excludesFile`.
    value: Option<String>,
    /// One more than the number of files that may still be read.
    files: usize,
}

/// The rules of a user: those of the file that the last value of `core.excludesFile` in the
/// settings names, or else of `git/ignore` in the folder of settings. The path is that of the git
/// folder of the repository that a search begins in.
pub fn user_rules<T: Look>(
    alloc: Global,
    tree: &mut T,
    user: &UserFiles<'_>,
    git: Option<&str>,
) -> Result<UserRules, AllocError>
    ensures rules { IfOk result (λ read. InTree (T.snapshot tree.old)
        (λ items. rules_in read.rules ≡ user_rules' items (user_of user.now git.entry))) }
    ensures unread { IfOk result (λ read. InTree (T.snapshot tree.old)
        (λ items. unread_paths read.unread.items ≡ unread_settings items (user_of user.now git.entry))) }
    ensures keeps { T.snapshot tree.new ≡ T.snapshot tree.old }
{
    let mut found = FoundSettings {
        alloc,
        reader: FolderReader::new(alloc),
        value: None,
        files: MOST_FILES + 1,
    };
    found.follow_all(tree, user, git)?;
    let rules = found.rules(tree, user)?;
    Ok(UserRules {
        rules,
        unread: found.reader.unread,
    })
}

impl FoundSettings {
    /// Reads the settings of a user.
    fn follow_all<T: Look>(
        &mut self,
        tree: &mut T,
        user: &UserFiles<'_>,
        git: Option<&str>,
    ) -> Result<(), AllocError>
        ensures found { OnOk result (Finds (T.snapshot tree.old) self.new
            (λ items. after_settings items (user_of user.now git.entry) (found_in self.old))) }
        ensures keeps { T.snapshot tree.new ≡ T.snapshot tree.old }
    {
        if let Some(path) = user.global {
            return self.follow(tree, user, git, path, MOST_DEPTH + 1);
        }
        let first = child_path(self.alloc, user.config, "git/config")?;
        let second = child_path(self.alloc, user.home, ".gitconfig")?;
        self.follow(tree, user, git, first.as_str(), MOST_DEPTH + 1)?;
        self.follow(tree, user, git, second.as_str(), MOST_DEPTH + 1)
    }

    /// Reads a file of settings and those that it includes, to a depth.
    fn follow<T: Look>(
        &mut self,
        tree: &mut T,
        user: &UserFiles<'_>,
        git: Option<&str>,
        path: &str,
        depth: usize,
    ) -> Result<(), AllocError>
        ensures found { OnOk result (Finds (T.snapshot tree.old) self.new
            (λ items. after_file items (user_of user.now git.entry) depth path.now (found_in self.old))) }
        ensures keeps { T.snapshot tree.new ≡ T.snapshot tree.old }
    {
        if depth == 0 || self.files <= 1 {
            return self.refuse(path);
        }
        let said = self.read(tree, path)?;
        let mut later = said.directives.as_slice();
        'directives: while let Some((directive, rest)) = later.split_first() {
            if let Some(included) = self.directive(user, git, path, directive)? {
                self.follow(tree, user, git, included.as_str(), depth - 1)?;
            }
            later = rest;
        }
        Ok(())
    }

    /// Notes a file that is not read. After too many the first one alone is noted.
    fn refuse(&mut self, path: &str) -> Result<(), AllocError>
        ensures { OnOk result (found_in self.new ≡ refused path.now (found_in self.old)) }
    {
        if self.files > 0 {
            self.files -= 1;
            self.note(path)?;
        }
        Ok(())
    }

    /// Notes a file of settings that is not taken as it is.
    fn note(&mut self, path: &str) -> Result<(), AllocError>
        ensures { OnOk result (found_in self.new ≡ noted path.now (found_in self.old)) }
    {
        self.reader.note(path, ListFault::Tree(TreeFault::Failed))
    }

    /// Reads one file of settings, and notes it if it has a bad line.
    fn read<T: Look>(&mut self, tree: &mut T, path: &str) -> Result<Said, AllocError>
        requires { 0 < self.old.files }
        ensures said { IfOk result (λ said. InTree (T.snapshot tree.old)
            (λ items. said_read said ≡ said_in' (bytes_of_item (items path.now)))) }
        ensures found { OnOk result (Finds (T.snapshot tree.old) self.new
            (λ items. with_file items path.now (found_in self.old))) }
        ensures keeps { T.snapshot tree.new ≡ T.snapshot tree.old }
    {
        self.files -= 1;
        let bytes = self.reader.read_linked(tree, path)?;
        let said = said_in(self.alloc, &bytes)?;
        if said.is_bad {
            self.note(path)?;
        }
        Ok(said)
    }

    /// Reads a directive of a file. Returns the path of the file that it includes.
    fn directive(
        &mut self,
        user: &UserFiles<'_>,
        git: Option<&str>,
        file: &str,
        directive: &Directive,
    ) -> Result<Option<String>, AllocError>
        ensures { IfOk result (λ path. ReadsDirective (user_of user.now git.entry) file.now
            (directive_read directive.now) (found_in self.old) (found_in self.new) (text_if path)) }
    {
        match directive {
            Directive::Excludes(path) => {
                self.value = Some(String::from_str(self.alloc, path.as_str())?);
                Ok(None)
            }
            Directive::Includes(None, path) => {
                let path = path_in_file(self.alloc, user.home, file, path.as_str())?;
                Ok(Some(path))
            }
            Directive::Includes(Some(condition), path) => {
                if !holds(self.alloc, user.home, file, condition.as_str(), git)? {
                    return Ok(None);
                }
                let path = path_in_file(self.alloc, user.home, file, path.as_str())?;
                Ok(Some(path))
            }
        }
    }

    /// The rules of the file that is named.
    fn rules<T: Look>(&mut self, tree: &mut T, user: &UserFiles<'_>) -> Result<Rules, AllocError>
        ensures rules { IfOk result (λ rules. InTree (T.snapshot tree.old) (λ items. rules_in rules
            ≡ rules_from items (rules_file user.now.home.now user.now.config.now (text_if self.old.value)))) }
        ensures unread { OnOk result (Notes (T.snapshot tree.old) self.old.reader self.new.reader
            (λ items. unread_at items
            (rules_file user.now.home.now user.now.config.now (text_if self.old.value)))) }
        ensures keeps { T.snapshot tree.new ≡ T.snapshot tree.old }
    {
        let Some(path) = self.rules_file(user)? else {
            return Ok(Rules::none(self.alloc));
        };
        let bytes = self.reader.read_linked(tree, path.as_str())?;
        Rules::parse(self.alloc, &bytes)
    }

    /// The path of that file.
    fn rules_file(&self, user: &UserFiles<'_>) -> Result<Option<String>, AllocError>
        ensures { IfOk result (λ path. text_if path
            ≡ rules_file user.now.home.now user.now.config.now (text_if self.now.value)) }
    {
        let path = match &self.value {
            None => child_path(self.alloc, user.config, "git/ignore")?,
            Some(path) if path.is_empty() => return Ok(None),
            Some(path) => expanded(self.alloc, user.home, path.as_str())?,
        };
        Ok(Some(path))
    }
}

/// A path whose `~` is the user's folder.
fn expanded(alloc: Global, home: &str, path: &str) -> Result<String, AllocError>
    ensures { IfOk result (λ all. string_bytes all ≡ expanded' home.now path.now) }
{
    if path == "~" {
        return String::from_str(alloc, home);
    }
    match path.strip_prefix("~/") {
        Some(rest) => child_path(alloc, home, rest),
        None => String::from_str(alloc, path),
    }
}

/// A path up to its last slash, with it.
fn stem_of_file(alloc: Global, path: &str) -> Result<String, AllocError>
    ensures { IfOk result (λ stem. string_bytes stem ≡ stem_of_file' path.now) }
{
    match path.rsplit_once('/') {
        Some((folder, _)) => child_path(alloc, folder, ""),
        None => Ok(String::new(alloc)),
    }
}

/// A path in the file of settings at another path.
fn path_in_file(alloc: Global, home: &str, file: &str, path: &str) -> Result<String, AllocError>
    ensures { IfOk result (λ all. string_bytes all ≡ path_in_file' home.now file.now path.now) }
{
    let path = expanded(alloc, home, path)?;
    if begins_with(b'/', path.as_bytes()) {
        return Ok(path);
    }
    let mut all = stem_of_file(alloc, file)?;
    all.push_str(path.as_str())?;
    Ok(all)
}

/// The pattern of a condition as a rule for paths below `/`.
fn pattern_in_file(
    alloc: Global,
    home: &str,
    file: &str,
    pattern: &str,
) -> Result<String, AllocError>
    ensures { IfOk result (λ all. string_bytes all ≡ pattern_in_file' home.now file.now pattern.now) }
{
    let pattern = expanded(alloc, home, pattern)?;
    let mut all = anchored(alloc, file, pattern)?;
    if all.as_bytes().ends_with(b"/") {
        all.push_str("**")?;
    }
    Ok(all)
}

/// A pattern that begins with a slash, or with `**/`.
fn anchored(alloc: Global, file: &str, pattern: String) -> Result<String, AllocError>
    ensures { IfOk result (λ all. string_bytes all ≡ anchored' file.now (string_bytes pattern)) }
{
    if begins_with(b'/', pattern.as_bytes()) {
        return Ok(pattern);
    }
    if let Some(rest) = pattern.strip_prefix("./") {
        let mut all = stem_of_file(alloc, file)?;
        all.push_str(rest)?;
        return Ok(all);
    }
    let mut all = String::from_str(alloc, "**/")?;
    all.push_str(pattern.as_str())?;
    Ok(all)
}

/// Whether a condition in a file holds of the git folder.
fn holds(
    alloc: Global,
    home: &str,
    file: &str,
    condition: &str,
    git: Option<&str>,
) -> Result<bool, AllocError>
    ensures { IfOk result (λ is_met. is_met ≡ holds' home.now file.now condition.now (lent git.entry)) }
{
    let Some(git) = git else {
        return Ok(false);
    };
    if let Some(pattern) = condition.strip_prefix("gitdir:") {
        let rule = pattern_in_file(alloc, home, file, pattern)?;
        return matches_rule(alloc, rule.as_str(), git);
    }
    let Some(pattern) = condition.strip_prefix("gitdir/i:") else {
        return Ok(false);
    };
    let rule = pattern_in_file(alloc, home, file, pattern)?.to_ascii_lowercase(alloc)?;
    let git = git.to_ascii_lowercase(alloc)?;
    matches_rule(alloc, rule.as_str(), git.as_str())
}

/// Whether a rule matches a whole path.
fn matches_rule(alloc: Global, rule: &str, path: &str) -> Result<bool, AllocError>
    ensures { IfOk result (λ is_match. is_match ≡ matches_rule' rule.now path.now) }
{
    let rules = Rules::parse(alloc, rule.as_bytes())?;
    let elements = path_names(alloc, path)?;
    let mut names = Vec::new(alloc);
    'names: for name in &elements {
        names.push(name.as_bytes())?;
    }
    Ok(rules.decide(&names, false, &mut Steps::new()).is_some())
}
