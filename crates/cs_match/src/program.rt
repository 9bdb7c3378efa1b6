// Programs: compiled patterns.
ghost use Rattle.std.specs.Prelude.{◌≡◌, ◌≤◌, ◌<◌, IfOk, IfSome, IsTrue, length, true};
ghost use Rattle.cs_match.specs.Cited.{tree_of, AreCutsOf, MatchSameLines, MatchSameSpans, position_count, repeats, char_step_of, IsExpanded, IsPrefilterOf, look_behind, is_anchored, is_one_word, AreClasses, HaveSameShape, shape_of, size_of, position_list, nodes, FitsWeight};

use crate::byte_classes::ByteClasses;
use crate::expand::expand;
use crate::glushkov::count_repeats;
use crate::parts::{Fragment, part_of};
use crate::position::{Position, add_positions};
use crate::spans::is_one_word;
use crate::state::{LookBehind, is_anchored, look_behind};
use cs_prefilter::Prefilter;
use cs_syntax::{CharStep, Cuts, Node, Pattern, Unfinished};
use std::alloc::{AllocError, Global};
use std::marker::Model;

/// The most sets of a word that is searched for without the automaton. To compare the bytes with so
/// many sets takes about as long as a step of the automaton.
const MOST_SETS: usize = 64;

/// A compiled pattern. Contracts see it as its expanded tree, which has a match in the same lines
/// as the pattern.
#[derive(Drop)]
pub struct Program {
    /// The expanded tree.
    root: Node,
    /// The tree without its sets.
    part: Fragment,
    positions: Vec<Position>,
    repeats: usize,
    /// The look-behind bits that the tree reads.
    look_behind: LookBehind,
    /// Each match begins at the start of the line.
    is_anchored: bool,
    /// The tree is one word, and a short one.
    is_short_word: bool,
    byte_classes: ByteClasses,
    cuts: Cuts,
    /// The prefilter, if the tree has rare words.
    prefilter: Option<Prefilter>,
}

impl Model for Program {
    ghost use Rattle.std.specs.Prelude.{◌≡◌, ◌≤◌, IfSome};
    ghost use Rattle.cs_syntax.specs.Matching.{Tree};
    ghost use Rattle.cs_syntax.specs.TreeCode.{tree_code};

    ghost Value = { Tree };

    ghost coded = { tree_code };

    ghost use Rattle.cs_syntax.specs.Node.{tree_of};
    ghost use Rattle.cs_match.specs.Glushkov.{IsProgram};
    ghost use Rattle.cs_match.specs.ByteClasses.{AreClasses};
    ghost use Rattle.cs_syntax.specs.Cuts.{AreCutsOf};
    ghost use Rattle.cs_prefilter.specs.WordAt.{IsPrefilterOf};
    ghost use Rattle.cs_match.specs.Parts.{HaveSameShape, shape_of, size_of};
    ghost use Rattle.cs_match.specs.Size.{nodes};
    ghost use Rattle.cs_match.specs.Entered.{position_list};
    ghost use Rattle.cs_match.specs.Anchored.{IsAnchorFlag};
    ghost use Rattle.cs_match.specs.OneWord.{IsWordFlag};

    ghost view = { λ program. tree_of program.root };

    ghost invariant = { λ program. IsProgram (tree_of program.root) program.repeats program.look_behind
        × IfSome program.prefilter (IsPrefilterOf (tree_of program.root))
        × HaveSameShape (tree_of program.root) (shape_of program.part)
        × (size_of program.part ≤ nodes (tree_of program.root))
        × (program.positions.items ≡ position_list (tree_of program.root))
        × AreClasses (tree_of program.root) program.byte_classes
        × AreCutsOf (tree_of program.root) program.cuts
        × IsAnchorFlag (tree_of program.root) program.is_anchored
        × IsWordFlag (tree_of program.root) program.is_short_word };
}

impl Program {
    /// Compiles a pattern: expands its counted repeats. The program has a match in the same lines,
    /// and at most two positions and three nodes for each unit of the pattern's weight.
    pub fn compile(alloc: Global, pattern: &Pattern) -> Result<Program, AllocError>
        ensures alike { IfOk result (λ program. MatchSameLines program pattern.now) }
        ensures spans { IfOk result (λ program. MatchSameSpans program pattern.now) }
        ensures small { IfOk result (λ program. FitsWeight program pattern.now) }
    {
        let root = expand(alloc, pattern.tree())?;
        let mut positions = Vec::new(alloc);
        add_positions(alloc, &root, &mut positions)?;
        let part = part_of(alloc, &root)?;
        let cuts = Cuts::of_tree(alloc, &root)?;
        let prefilter = Prefilter::of(alloc, &root)?;
        let repeats = count_repeats(&root);
        let look_behind = look_behind(&root);
        let is_anchored = is_anchored(&root);
        let is_word = is_one_word(&root);
        let is_short_word = is_word & (positions.len() <= MOST_SETS);
        let byte_classes = ByteClasses::of_tree(&root, look_behind, &cuts);
        Ok(Program {
            root,
            part,
            positions,
            repeats,
            look_behind,
            is_anchored,
            is_short_word,
            byte_classes,
            cuts,
            prefilter,
        })
    }

    pub(crate) fn part(&self) -> &Fragment
        ensures shape { HaveSameShape self.now (shape_of result.now) }
        ensures size { size_of result.now ≤ nodes self.now }
    {
        &self.part
    }

    pub(crate) fn positions(&self) -> &[Position]
        ensures list { result.now ≡ position_list self.now }
        ensures count { length result.now ≡ position_count self.now }
    {
        &self.positions
    }

    /// The number of repeats of the tree. Each repeat is a loop.
    pub(crate) fn repeats(&self) -> usize
        ensures count { result ≡ repeats self.now }
        ensures expanded { IsExpanded self.now }
    {
        self.repeats
    }

    pub(crate) fn look_behind(&self) -> LookBehind
        ensures { result ≡ look_behind self.now }
    {
        self.look_behind
    }

    pub(crate) fn is_anchored(&self) -> bool
        ensures { result ≡ is_anchored self.now }
    {
        self.is_anchored
    }

    pub(crate) fn is_short_word(&self) -> bool
        ensures { IsTrue result → is_one_word self.now ≡ true }
    {
        self.is_short_word
    }

    pub(crate) fn byte_classes(&self) -> &ByteClasses
        ensures { AreClasses self.now result.now }
    {
        &self.byte_classes
    }

    /// What the byte does to the unfinished character, if the tree has sets of characters.
    pub(crate) fn char_step(&self, at: Unfinished, byte: u8) -> CharStep
        ensures { result ≡ char_step_of self.now at byte }
    {
        if self.look_behind.char {
            self.cuts.step(at, byte)
        } else {
            CharStep::Nothing
        }
    }

    pub(crate) fn prefilter(&self) -> Option<&Prefilter>
        ensures { IfSome result (λ prefilter. IsPrefilterOf self.now prefilter.now) }
    {
        self.prefilter.as_ref()
    }
}
