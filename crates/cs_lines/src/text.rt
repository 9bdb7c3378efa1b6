// What is printed for a text but its lines, and a text that is in memory.
ghost use Rattle.std.specs.Prelude.{◌≡◌, ◌++◌, ◌<◌, ◌+◌, ◌^◌, ◌≤◌, [], false, length, count_by, IfOk, OnErr, Some, nat_lt, codes, if◌then◌else◌};
ghost use Rattle.cs_lines.specs.Cited.{dyed, Keeps, Prints, given, is_wanted, at_most, binary_groups, count_groups, counted_bytes, following, line_gap, name_groups, last_line, terminated_lines, AreWholeLines, Finding, Tests, KeepsSearch, has_stopped, Takes, line_weight, line_work, searched_work};

use crate::form::ShowOptions;
use crate::lines::line_count;
use crate::rows::Page;
use crate::search::LineSearch;
use crate::searching::is_wanted;
use cs_tree::{Sink, SinkOutput};
use itoa::Buffer;

/// How many lines of a block of whole lines are wanted.
pub(crate) fn ended_count(options: &ShowOptions, block: &[u8], search: &mut LineSearch<'_>) -> u64
    requires whole { AreWholeLines block.now }
    ensures count { (finding : Finding) → Tests finding.has_match search.old →
        result ≡ count_by (is_wanted options.now finding.has_match) (terminated_lines block.now) }
    ensures bound { result ≤ length block.now }
    ensures same { KeepsSearch search.old search.new }
    ensures budget { has_stopped search.new ≡ has_stopped search.old }
    ensures work { Takes (searched_work (line_weight search.old) (length block.now)) search.old search.new }
{
    let matches = search.count(block);
    if !options.invert {
        return matches;
    }
    search.add_steps(block.len());
    line_count(block) as u64 - matches
}

/// Whether a line of a block of whole lines is wanted: 1 if one is, else 0.
pub(crate) fn ended_some(options: &ShowOptions, block: &[u8], search: &mut LineSearch<'_>) -> u64
    requires whole { AreWholeLines block.now }
    ensures some { (finding : Finding) → Tests finding.has_match search.old →
        result ≡ at_most (Some 1) (count_by (is_wanted options.now finding.has_match)
        (terminated_lines block.now)) }
    ensures bound { result ≤ length block.now }
    ensures same { KeepsSearch search.old search.new }
    ensures budget { has_stopped search.new ≡ has_stopped search.old }
    ensures work { Takes (searched_work (line_weight search.old) (length block.now)) search.old search.new }
{
    if options.invert {
        return ended_count(options, block, search).min(1);
    }
    match search.next_match(block, 0) {
        Some(_) => 1,
        None => 0,
    }
}

/// How many lines are wanted of the bytes after the last newline.
pub(crate) fn last_count(options: &ShowOptions, last: &[u8], search: &mut LineSearch<'_>) -> u64
    ensures count { (finding : Finding) → Tests finding.has_match search.old →
        result ≡ count_by (is_wanted options.now finding.has_match) (last_line last.now) }
    ensures bound { result ≤ 1 }
    ensures same { KeepsSearch search.old search.new }
    ensures budget { has_stopped search.new ≡ has_stopped search.old }
    ensures work { Takes (line_work (line_weight search.old) (length last.now)) search.old search.new }
{
    if last.is_empty() {
        return 0;
    }
    if is_wanted(options, last, search) {
        1
    } else {
        0
    }
}

impl ShowOptions {
    /// At most so many lines are marked.
    pub(crate) fn at_most(&self, count: u64) -> u64
        ensures { result ≡ at_most self.now.most count }
    {
        match self.most {
            None => count,
            Some(most) => most.min(count),
        }
    }
}

impl Page<'_> {
    /// How many lines are marked, unless it is 0.
    #[tactic(auto, using(crate::proofs::Printing::printing))]
    pub(crate) fn print_count<O: Sink>(&self, count: u64, out: &mut SinkOutput<'_, O>)
        ensures { Prints O.model O.failed out.old out.new
            (following [] self.now.begun (count_groups self.now.options.now self.now.name.now count)) }
    {
        if count == 0 {
            return;
        }
        self.print_counted(out);
        let mut digits = Buffer::new();
        out.print(digits.format(count).as_bytes());
        out.print(b"\n");
    }

    /// What is before a count.
    #[tactic(auto, using(crate::proofs::Printing::printing))]
    fn print_counted<O: Sink>(&self, out: &mut SinkOutput<'_, O>)
        ensures { Prints O.model O.failed out.old out.new
            (counted_bytes self.now.options.now self.now.name.now) }
    {
        if self.options.form.spaced {
            self.print_name(b": ", out);
        } else if !self.options.form.bare {
            self.print_name(b":", out);
        }
    }

    /// The name on a line, if it is to be listed.
    #[tactic(auto, using(crate::proofs::Printing::printing))]
    pub(crate) fn print_listed<O: Sink>(&self, here: bool, out: &mut SinkOutput<'_, O>)
        ensures { Prints O.model O.failed out.old out.new
            (following [] self.now.begun (name_groups self.now.options.now self.now.name.now here)) }
    {
        if here {
            self.print_name(b"\n", out);
        }
    }

    /// That the text is binary, if a line is marked.
    #[tactic(auto, using(crate::proofs::Printing::printing))]
    pub(crate) fn print_binary<O: Sink>(&self, here: bool, out: &mut SinkOutput<'_, O>)
        ensures { Prints O.model O.failed out.old out.new (following (line_gap self.now.options.now)
            self.now.begun (binary_groups self.now.options.now self.now.name.now here)) }
    {
        if here {
            self.print_binary_match(out);
        }
    }

    /// That the text is binary and a line is marked, after what is between texts.
    #[tactic(auto, using(crate::proofs::Printing::printing))]
    fn print_binary_match<O: Sink>(&self, out: &mut SinkOutput<'_, O>)
        ensures { Prints O.model O.failed out.old out.new
            ((if self.now.begun then line_gap self.now.options.now else [])
            ++ (dyed self.now.options.now.form (codes "35") self.now.name.now
            ++ codes ": binary file matches\n")) }
    {
        if self.begun {
            self.print_between(out);
        }
        self.print_binary_line(out);
    }

    /// The line that says that the text is binary and matches.
    #[tactic(auto, using(crate::proofs::Printing::printing))]
    fn print_binary_line<O: Sink>(&self, out: &mut SinkOutput<'_, O>)
        ensures { Prints O.model O.failed out.old out.new
            (dyed self.now.options.now.form (codes "35") self.now.name.now
            ++ codes ": binary file matches\n") }
    {
        self.options
            .form
            .print_dyed(b"35", self.name.as_bytes(), out);
        out.print(b": binary file matches\n");
    }
}
