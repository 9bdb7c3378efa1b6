// Fault injection for tests: a tree in which one call fails.
ghost use Rattle.std.specs.Prelude.{◌≡◌, ◌≢◌, ◌≤◌, ◌-◌, ℕ, Option, None, IfOk, IfErr, Ok, Err, length, true, nat_eq, option_map};
ghost use Rattle.cs_tree.specs.FailureCount.{count_after};
ghost use Rattle.cs_tree.specs.Folders.{are_elements};
ghost use Rattle.cs_fakes.specs.Fuses.{Blows, KeepsInner, KeepsInnerOpen, calls_left, inner_tree};
ghost use Rattle.cs_tree.specs.ReadCounts.{after_lookup, after_open, after_read};
ghost use Rattle.cs_tree.specs.Trees.{Answers, RequestsPath, OpensFile, TreeReadGives, IsReadFault, is_tree_failure, kind_of, listing_of, listing_value, listing_names};

use cs_tree::{Kind, Listing, Tree, TreeFault, counted_answer};
use std::alloc::Global;

/// A tree that forwards its calls to another one, except for one call, which fails. It has no
/// model; its clauses say what each call does to the inner tree.
#[derive(Drop)]
pub struct FuseTree<T: Drop> {
    inner: T,
    left: u64,
    failed: u64,
}

impl<T: Tree + Drop> FuseTree<T> {
    /// The `k`th call returns `Failed` without reaching the inner tree. Calls of `kind`, `entries`,
    /// `open` and `read` are counted, from 1. With 0 every call is forwarded. Allocates nothing.
    pub fn new(inner: T, k: u64) -> FuseTree<T>
        ensures left { calls_left result ≡ k }
        ensures inner { inner_tree result ≡ inner }
        ensures failed { ⟦<FuseTree<T> as Tree>⟧.failed result ≡ 0 }
    {
        FuseTree {
            inner,
            left: k,
            failed: 0,
        }
    }

    /// Counts one call, and returns whether it is the one that fails.
    fn blows(&mut self) -> bool
        ensures blows { result ≡ nat_eq (calls_left self.old) 1 }
        ensures left { calls_left self.new ≡ calls_left self.old - 1 }
        ensures inner { inner_tree self.new ≡ inner_tree self.old }
        ensures failed { self.new.failed ≡ self.old.failed }
    {
        let blows = self.left == 1;
        self.left = self.left.saturating_sub(1);
        blows
    }
}

impl<T: Tree + Drop> Tree for FuseTree<T> {
    ghost failed = { λ t. t.failed };

    ghost counts_modelled = { λ _ model. model };

    fn kind(&mut self, path: &str) -> Result<Kind, TreeFault>
        ensures blows { Blows self.old self.new result
            (Answers (λ kind. kind) (T.snapshot (inner_tree self.old)) kind_of path.now result) }
        ensures keeps { KeepsInner T.snapshot self.old self.new }
        ensures open { KeepsInnerOpen T.snapshot T.opened self.old self.new }
        ensures requested { calls_left self.old ≢ 1 → RequestsPath
            (T.longest_requested (inner_tree self.old))
            (T.longest_requested (inner_tree self.new)) path.now }
        ensures counts { calls_left self.old ≢ 1 → T.read_counts (inner_tree self.new)
            ≡ option_map after_lookup (T.read_counts (inner_tree self.old)) }
        ensures counted { calls_left self.old ≢ 1 → T.failed (inner_tree self.new)
            ≡ count_after is_tree_failure result (T.failed (inner_tree self.old)) }
        ensures left { calls_left self.new ≡ calls_left self.old - 1 }
        ensures failed { ⟦<FuseTree<T> as Tree>⟧.failed self.new
            ≡ count_after is_tree_failure result (⟦<FuseTree<T> as Tree>⟧.failed self.old) }
    {
        let answer = if self.blows() {
            Err(TreeFault::Failed)
        } else {
            self.inner.kind(path)
        };
        counted_answer(&mut self.failed, answer)
    }

    fn entries(&mut self, alloc: Global, path: &str) -> Result<Listing, TreeFault>
        ensures blows { Blows self.old self.new result
            (Answers listing_value (T.snapshot (inner_tree self.old)) listing_of path.now result) }
        ensures names { IfOk result (λ listing. are_elements (listing_names listing) ≡ true) }
        ensures keeps { KeepsInner T.snapshot self.old self.new }
        ensures open { KeepsInnerOpen T.snapshot T.opened self.old self.new }
        ensures requested { calls_left self.old ≢ 1 → RequestsPath
            (T.longest_requested (inner_tree self.old))
            (T.longest_requested (inner_tree self.new)) path.now }
        ensures counts { calls_left self.old ≢ 1 → T.read_counts (inner_tree self.new)
            ≡ option_map after_lookup (T.read_counts (inner_tree self.old)) }
        ensures counted { calls_left self.old ≢ 1 → T.failed (inner_tree self.new)
            ≡ count_after is_tree_failure result (T.failed (inner_tree self.old)) }
        ensures left { calls_left self.new ≡ calls_left self.old - 1 }
        ensures failed { ⟦<FuseTree<T> as Tree>⟧.failed self.new
            ≡ count_after is_tree_failure result (⟦<FuseTree<T> as Tree>⟧.failed self.old) }
    {
        let answer = if self.blows() {
            Err(TreeFault::Failed)
        } else {
            self.inner.entries(alloc, path)
        };
        counted_answer(&mut self.failed, answer)
    }

    fn open(&mut self, path: &str) -> Result<(), TreeFault>
        ensures blows { Blows self.old self.new result
            (OpensFile (T.snapshot (inner_tree self.old)) path.now result
            (T.opened (inner_tree self.new))) }
        ensures keeps { KeepsInner T.snapshot self.old self.new }
        ensures requested { calls_left self.old ≢ 1 → RequestsPath
            (T.longest_requested (inner_tree self.old))
            (T.longest_requested (inner_tree self.new)) path.now }
        ensures counts { calls_left self.old ≢ 1 → T.read_counts (inner_tree self.new)
            ≡ option_map after_open (T.read_counts (inner_tree self.old)) }
        ensures counted { calls_left self.old ≢ 1 → T.failed (inner_tree self.new)
            ≡ count_after is_tree_failure result (T.failed (inner_tree self.old)) }
        ensures left { calls_left self.new ≡ calls_left self.old - 1 }
        ensures failed { ⟦<FuseTree<T> as Tree>⟧.failed self.new
            ≡ count_after is_tree_failure result (⟦<FuseTree<T> as Tree>⟧.failed self.old) }
    {
        let answer = if self.blows() {
            Err(TreeFault::Failed)
        } else {
            self.inner.open(path)
        };
        counted_answer(&mut self.failed, answer)
    }

    fn read(&mut self, buf: &mut [u8]) -> Result<usize, TreeFault>
        ensures within { IfOk result (λ n. n ≤ length buf.new) }
        ensures fault { IfErr result IsReadFault }
        ensures blows { Blows self.old self.new result
            (TreeReadGives (T.snapshot (inner_tree self.old))
            (T.opened (inner_tree self.old)) (T.opened (inner_tree self.new)) result buf.new) }
        ensures keeps { KeepsInner T.snapshot self.old self.new }
        ensures requested { KeepsInner T.longest_requested self.old self.new }
        ensures counts { calls_left self.old ≢ 1 → T.read_counts (inner_tree self.new)
            ≡ option_map (after_read result) (T.read_counts (inner_tree self.old)) }
        ensures counted { calls_left self.old ≢ 1 → T.failed (inner_tree self.new)
            ≡ count_after is_tree_failure result (T.failed (inner_tree self.old)) }
        ensures left { calls_left self.new ≡ calls_left self.old - 1 }
        ensures failed { ⟦<FuseTree<T> as Tree>⟧.failed self.new
            ≡ count_after is_tree_failure result (⟦<FuseTree<T> as Tree>⟧.failed self.old) }
    {
        let answer = if self.blows() {
            Err(TreeFault::Failed)
        } else {
            self.inner.read(buf)
        };
        counted_answer(&mut self.failed, answer)
    }

    fn failures(&self) -> u64 {
        self.failed
    }
}
