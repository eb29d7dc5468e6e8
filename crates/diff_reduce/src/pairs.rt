//! Pairs that are found by their first part.

ghost use Rattle.std.specs.Prelude.{◌≡◌, ◌⊎◌, ◌++◌, [], filter, map, OnOk, OnErr};
ghost use Rattle.std.specs.List.{Contains};
ghost use Rattle.std.specs.Ordering.{is_eq, is_ne};
ghost use Rattle.flow_core.specs.Runs.{IsNextDue};
ghost use Rattle.diff_reduce.specs.Stands.{due_times};

use ordered_pairs::widened;
use std::alloc::Global;
use std::collections::{BTreeSet, btree_set};
use std::marker::Model;
use std::ops::Bound;
use surge_outside::{List, NoMemory, Record};

/// Pairs in the order of their first parts, and where these are equal of their second parts, each pair once. It keeps
/// the least and the greatest second part since there was no pair, so that the pairs with a first part are a range.
#[derive(Drop)]
pub(crate) struct Pairs<A: Record, B: Record> {
    pairs: BTreeSet<(A, B)>,
    span: Option<(B, B)>,
}

impl<A: Record, B: Record> Model for Pairs<A, B> {
    ghost use Rattle.std.specs.Prelude.{List};
    ghost use Rattle.std.specs.List.Sorted.{IsStrictlySortedBy};
    ghost use Rattle.trace_store.specs.Traces.{in_turn};
    ghost use Rattle.ordered_pairs.specs.Spans.{IsSpanned};

    ghost Value = { List (A × B) };

    ghost view = { λ p. p.pairs.keys };

    ghost invariant = { λ p. IsStrictlySortedBy (in_turn A.cmp B.cmp) p.pairs.keys × IsSpanned B.cmp p.span p.pairs.keys };
}

/// Adds the second parts of pairs.
fn push_all<A: Record, B: Record>(
    seconds: &mut List<B>,
    pairs: btree_set::Range<'_, (A, B)>,
) -> Result<(), NoMemory>
    ensures { OnOk result (seconds.new ≡ seconds.old ++ map (λ p. p.1) pairs.entry) }
{
    for pair in pairs {
        seconds.push(pair.1)?;
    }
    Ok(())
}

/// Takes out the pairs of a first part with these second parts, which are all that it has, in order.
fn take_out<A: Record, B: Record>(pairs: &mut BTreeSet<(A, B)>, first: &A, seconds: &[B])
    requires { map (λ p. p.1) (filter (λ p. is_eq (A.cmp p.0 first.now)) pairs.old.keys) ≡ seconds.now }
    ensures { pairs.new.keys ≡ filter (λ p. is_ne (A.cmp p.0 first.now)) pairs.old.keys }
{
    for second in seconds {
        pairs.remove(&(*first, *second));
    }
}

impl<A: Record, B: Record> Pairs<A, B> {
    /// No pair. It takes no memory.
    pub(crate) fn new(alloc: Global) -> Pairs<A, B>
        ensures { result ≡ [] }
    {
        Pairs {
            pairs: BTreeSet::new(alloc),
            span: None,
        }
    }

    /// Adds the second parts of the pairs with a first part. It takes time in proportion to their number and to the
    /// logarithm of that of all pairs.
    ///
    /// Errors: out of memory; `seconds` is then any list.
    pub(crate) fn push_seconds(&self, first: &A, seconds: &mut List<B>) -> Result<(), NoMemory>
        ensures { OnOk result (seconds.new ≡ seconds.old ++ map (λ p. p.1) (filter (λ p. is_eq (A.cmp p.0 first.now)) self.now)) }
    {
        let Some((low, high)) = self.span else {
            return Ok(());
        };
        let from = Bound::Included((*first, low));
        let to = Bound::Included((*first, high));
        push_all(seconds, self.pairs.range((from, to)))
    }

    /// The first part that is least, and None where there is no pair. It takes no memory.
    pub(crate) fn least(&self) -> Option<A>
        ensures { IsNextDue A.cmp result (due_times self.now) }
    {
        match self.pairs.first() {
            Some(pair) => Some(pair.0),
            None => None,
        }
    }

    /// Drops the pairs with a first part. It takes time in proportion to their number times the logarithm of that of
    /// all pairs.
    ///
    /// Errors: out of memory; the pairs are then as they were.
    pub(crate) fn remove(&mut self, alloc: Global, first: &A) -> Result<(), NoMemory>
        ensures rest { OnOk result (self.new ≡ filter (λ p. is_ne (A.cmp p.0 first.now)) self.old) }
        ensures err { OnErr result (self.new ≡ self.old) }
    {
        let mut seconds = List::new(alloc);
        self.push_seconds(first, &mut seconds)?;
        take_out(&mut self.pairs, first, seconds.as_slice());
        Ok(())
    }

    /// Adds a pair, unless it is there.
    ///
    /// Errors: out of memory; the pairs are then as they were.
    fn put(&mut self, pair: (A, B)) -> Result<(), NoMemory>
        ensures old { OnOk result ((p : A × B) → Contains self.old p → Contains self.new p) }
        ensures more { OnOk result (Contains self.new pair) }
        ensures only { OnOk result ((p : A × B) → Contains self.new p → Contains self.old p ⊎ (pair ≡ p)) }
        ensures err { OnErr result (self.new ≡ self.old) }
    {
        self.pairs.insert(pair)?;
        self.span = Some(widened(self.span, pair.1));
        Ok(())
    }

    /// Adds pairs, in any order and any number of times. It takes time in proportion to their number times the
    /// logarithm of that of all pairs.
    ///
    /// Errors: out of memory; some of the pairs may then have been added.
    pub(crate) fn add(&mut self, more: &[(A, B)]) -> Result<(), NoMemory>
        ensures old { OnOk result ((p : A × B) → Contains self.old p → Contains self.new p) }
        ensures more { OnOk result ((p : A × B) → Contains more.now p → Contains self.new p) }
        ensures only { OnOk result ((p : A × B) → Contains self.new p → Contains self.old p ⊎ Contains more.now p) }
    {
        for pair in more {
            self.put(*pair)?;
        }
        Ok(())
    }

    /// Drops every pair. It takes no memory.
    pub(crate) fn clear(&mut self)
        ensures { self.new ≡ [] }
    {
        self.pairs.clear();
        self.span = None;
    }
}
