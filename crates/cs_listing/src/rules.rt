// The rules of one file, and what the last of them says that applies to a path. Each rule has a key
// of one byte, by which a search for three bytes skips most rules that cannot match a name.
ghost use Rattle.std.specs.Prelude.{◌≡◌, ◌++◌, ◌∷◌, [], IfOk, OnOk, map};
ghost use Rattle.std.specs.List.{list_any};
ghost use Rattle.cs_tree.specs.CountsAtMost.{CountsAtMost};
ghost use Rattle.cs_listing.specs.Rules.{applies as applies', decide as decide'};
ghost use Rattle.cs_listing.specs.Braces.{AddsGlobs, globs_in, globs_saying};
ghost use Rattle.cs_listing.specs.Choices.{is_ignore as is_ignore', takes};
ghost use Rattle.cs_listing.specs.MatchWork.{path_work, rules_work};
ghost use Rattle.cs_listing.specs.Marks.{rule_marks};
ghost use Rattle.cs_listing.specs.RuleFiles.{rules_of, rule_of_line, rule_in, rule_saying, rules_saying};

use crate::braces::{alternatives, are_globs};
use crate::classes::begins_with;
use crate::glob::{Element, matches_glob};
use crate::glob_parsing::parse_glob;
use crate::layers::last_name;
use crate::marks::{glob_marks, name_marks};
use crate::rule_lines::{line_text, without_last, without_mark};
use cs_tree::Steps;
use std::alloc::{AllocError, Global};
use std::marker::Model;

/// What a rule says of what it matches.
#[derive(Clone, Copy, PartialEq, Eq)]
pub enum Decision {
    Ignore,
    /// A rule with `!`.
    TakeBack,
}

impl Decision {
    pub(crate) fn is_ignore(self) -> bool
        ensures { result ≡ is_ignore' self }
    {
        match self {
            Decision::Ignore => true,
            Decision::TakeBack => false,
        }
    }
}

#[derive(Drop)]
pub(crate) struct Rule {
    decision: Decision,
    /// A rule that ends in a slash.
    only_folders: bool,
    glob: Vec<Element>,
}

/// The rules of a file, in order.
#[derive(Drop)]
pub struct Rules {
    rules: Vec<Rule>,
    /// What the last name of a path needs for each rule.
    marks: Vec<u64>,
    ghost marked: { marks.items ≡ map rule_marks rules.items },
}

impl Rules {
    ghost use Rattle.cs_listing.specs.Models.{names, rules_in};

    /// No rules.
    pub fn none(alloc: Global) -> Rules
        ensures { rules_in result ≡ [] }
    {
        Rules {
            rules: Vec::new(alloc),
            marks: Vec::new(alloc),
        }
    }

    /// The rules of a file's bytes.
    pub fn parse(alloc: Global, bytes: &[u8]) -> Result<Rules, AllocError>
        ensures { IfOk result (λ rules. rules_in rules ≡ rules_of bytes.now) }
    {
        let mut rules = Rules::none(alloc);
        for line in without_mark(bytes).split(|byte| *byte == b'\n') {
            rules.add_line(alloc, line)?;
        }
        Ok(rules)
    }

    /// What the last rule says that applies to a path, which is given by its elements below the
    /// folder of the rules.
    pub fn decide(&self, path: &[&[u8]], is_folder: bool, steps: &mut Steps) -> Option<Decision>
        ensures decides { result ≡ decide' (rules_in self.now) (names path.now) is_folder }
        ensures work { CountsAtMost (rules_work (rules_in self.now) (names path.now)) steps.old steps.new }
    {
        // Most folders have none.
        if self.rules.is_empty() {
            return None;
        }
        self.decide_by_marks(path, is_folder, steps)
    }

    // Apart, so that the test before it is inlined.
    #[inline(never)]
    fn decide_by_marks(
        &self,
        path: &[&[u8]],
        is_folder: bool,
        steps: &mut Steps,
    ) -> Option<Decision>
        ensures decides { result ≡ decide' (rules_in self.now) (names path.now) is_folder }
        ensures work { CountsAtMost (rules_work (rules_in self.now) (names path.now)) steps.old steps.new }
    {
        let marks = name_marks(last_name(path));
        let mut at = self.marks.len();
        'rules: while at > 0 {
            at -= 1;
            let rule = &self.rules[at];
            if marks | self.marks[at] == marks && rule.applies(path, is_folder, steps) {
                return Some(rule.decision);
            }
        }
        None
    }
}

impl Rules {
    ghost use Rattle.cs_listing.specs.Models.{rules_in};
    ghost use Rattle.cs_listing.specs.Reading.{AddsRule};

    /// Adds the globs that a text with braces stands for. It may begin with `!`. False if there are
    /// none, or if one of them can match nothing.
    pub(crate) fn add_globs(&mut self, alloc: Global, text: &[u8]) -> Result<bool, AllocError>
        ensures { IfOk result
            (λ is_glob. AddsGlobs (globs_in text.now) is_glob (rules_in self.old) (rules_in self.new)) }
    {
        match text.split_first() {
            Some((b'!', rest)) => self.add_alternatives(alloc, Decision::TakeBack, rest),
            _ => self.add_alternatives(alloc, Decision::Ignore, text),
        }
    }

    /// The same of a text without `!`.
    fn add_alternatives(
        &mut self,
        alloc: Global,
        decision: Decision,
        text: &[u8],
    ) -> Result<bool, AllocError>
        ensures { IfOk result (λ is_glob. AddsGlobs (globs_saying decision text.now) is_glob
            (rules_in self.old) (rules_in self.new)) }
    {
        let Some(globs) = alternatives(alloc, text)? else {
            return Ok(false);
        };
        if !are_globs(alloc, &globs)? {
            return Ok(false);
        }
        for glob in globs.iter() {
            self.add_rule(alloc, decision, glob)?;
        }
        Ok(true)
    }

    /// Adds a rule for each of the texts between the spaces of a text.
    pub(crate) fn add_all(
        &mut self,
        alloc: Global,
        decision: Decision,
        texts: &[u8],
    ) -> Result<(), AllocError>
        ensures { OnOk result (rules_in self.new ≡ rules_in self.old ++ rules_saying decision texts.now) }
    {
        for text in texts.split(|byte| *byte == b' ') {
            self.add_rule(alloc, decision, text)?;
        }
        Ok(())
    }

    /// Whether some rule ignores what it matches.
    pub(crate) fn ignores_some(&self) -> bool
        ensures { result ≡ list_any takes (rules_in self.now) }
    {
        self.rules.iter().any(|rule| rule.decision.is_ignore())
    }

    /// Adds the rule of a line, if it has one.
    fn add_line(&mut self, alloc: Global, line: &[u8]) -> Result<(), AllocError>
        ensures { OnOk result (AddsRule (rule_of_line line.now) self.old.rules.items self.new.rules.items) }
    {
        if begins_with(b'#', line) {
            return Ok(());
        }
        self.add_text(alloc, line_text(line))
    }

    /// Adds the rule of a text, which may begin with `!`.
    fn add_text(&mut self, alloc: Global, text: &[u8]) -> Result<(), AllocError>
        ensures { OnOk result (AddsRule (rule_in text.now) self.old.rules.items self.new.rules.items) }
    {
        match text.split_first() {
            Some((b'!', rest)) => self.add_rule(alloc, Decision::TakeBack, rest),
            _ => self.add_rule(alloc, Decision::Ignore, text),
        }
    }

    /// Adds the rule of a text, unless it is empty.
    fn add_rule(&mut self, alloc: Global, decision: Decision, text: &[u8]) -> Result<(), AllocError>
        ensures { OnOk result
            (AddsRule (rule_saying decision text.now) self.old.rules.items self.new.rules.items) }
    {
        let glob_text = without_last(b'/', text);
        if glob_text.is_empty() {
            return Ok(());
        }
        let glob = parse_glob(alloc, glob_text)?;
        self.push(Rule {
            decision,
            only_folders: glob_text.len() < text.len(),
            glob,
        })?;
        Ok(())
    }

    fn push(&mut self, rule: Rule) -> Result<(), AllocError>
        ensures { OnOk result (self.new.rules.items ≡ self.old.rules.items ++ rule ∷ []) }
    {
        let marks = glob_marks(&rule.glob);
        // After this the last push does not fail, so no marks are without their rule.
        self.rules.reserve(1)?;
        self.marks.push(marks)?;
        self.rules.push(rule)?;
        Ok(())
    }
}

impl Rule {
    ghost use Rattle.cs_listing.specs.Models.{names, rule_of};

    fn applies(&self, path: &[&[u8]], is_folder: bool, steps: &mut Steps) -> bool
        ensures applies { result ≡ applies' (rule_of self.now) (names path.now) is_folder }
        ensures work { CountsAtMost (path_work (rule_of self.now).glob (names path.now)) steps.old steps.new }
    {
        (is_folder || !self.only_folders) && matches_glob(&self.glob, path, steps)
    }
}
