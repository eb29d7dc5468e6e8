//! Worked examples of weights and batches.

ghost use Rattle.std.specs.Prelude.{◌≡◌, [], ◌∷◌, IfOk};

use std::alloc::Global;
use std::test::Fail;
use surge_outside::List;
use weighted::{Batch, Weight};

/// An entry that no batch keeps.
const GONE: (u32, Weight) = (0, Weight(0));

// ---- weights

/// Whether two weights have this sum and this product, and the first has a negation.
fn wraps(a: u64, b: u64, sum: u64, product: u64) -> bool {
    let a = Weight(a);
    let b = Weight(b);
    a.add(b) == Weight(sum) && a.times(b) == Weight(product) && a.add(a.negate()) == Weight(0)
}

#[test]
fn weights_wrap(rt: HostRuntime) {
    let minus_one = u64::MAX;
    assert!(rt; wraps(3, 4, 7, 12));
    assert!(rt; wraps(1, minus_one, 0, minus_one));
    assert!(rt; wraps(minus_one, minus_one, u64::MAX - 1, 1));
    assert!(rt; wraps(1 << 63, 2, (1 << 63) + 2, 0));
}

// ---- batches

/// The batch of entries.
fn batch(alloc: Global, entries: &[(u32, Weight)]) -> Result<Batch<u32>, Fail> {
    let mut list = List::new(alloc);
    for entry in entries {
        list.push(*entry)?;
    }
    Ok(Batch::from_entries(list)?)
}

fn has(batch: &Batch<u32>, entries: &[(u32, Weight)]) -> bool {
    batch.as_slice() == entries
}

/// Whether two batches add up to these entries.
fn add_up(
    alloc: Global,
    left: &[(u32, Weight)],
    right: &[(u32, Weight)],
    sum: &[(u32, Weight)],
) -> Result<bool, Fail> {
    let left = batch(alloc, left)?;
    let right = batch(alloc, right)?;
    Ok(has(&left.add(&right)?, sum))
}

/// Whether a batch has this negation, and adds up with it to nothing.
fn negates(
    alloc: Global,
    entries: &[(u32, Weight)],
    negated: &[(u32, Weight)],
) -> Result<bool, Fail> {
    let one = batch(alloc, entries)?;
    let other = one.negate()?;
    let none = one.add(&other)?;
    Ok(has(&other, negated) && none.is_empty())
}

/// Whether batches merge into these entries.
fn merge_into(
    alloc: Global,
    lists: &[[(u32, Weight); 3]],
    sum: &[(u32, Weight)],
) -> Result<bool, Fail> {
    let mut batches = Vec::new(alloc);
    for entries in lists {
        batches.push(batch(alloc, entries)?)?;
    }
    Ok(has(&Batch::merge(alloc, batches.as_slice())?, sum))
}

/// The second entry of a batch that has three.
fn second_of_three(
    alloc: Global,
    entries: &[(u32, Weight)],
) -> Result<Option<(u32, Weight)>, Fail> {
    let batch = batch(alloc, entries)?;
    if batch.len() == 3 {
        Ok(Some(batch.entry(1)))
    } else {
        Ok(None)
    }
}

/// Whether these are the entries of a batch once they are taken out of it, and of the batch that is made of them again.
fn come_back(
    alloc: Global,
    entries: &[(u32, Weight)],
    rising: &[(u32, Weight)],
) -> Result<bool, Fail> {
    let list = batch(alloc, entries)?.into_entries();
    let are_rising = list.as_slice() == rising;
    let again = Batch::from_rising(list);
    Ok(are_rising && has(&again, rising))
}

/// A list of two entries.
fn pair(
    alloc: Global,
    first: (u32, Weight),
    second: (u32, Weight),
) -> Result<List<(u32, Weight)>, Fail>
    ensures { IfOk result (λ list. list ≡ first ∷ second ∷ []) }
{
    let mut list = List::new(alloc);
    list.push(first)?;
    list.push(second)?;
    Ok(list)
}

#[test]
fn entries_of_one_record_add_up(rt: HostRuntime) -> Result<(), Fail> {
    let entries = [(5, Weight(1)), (3, Weight(2)), (5, Weight(u64::MAX))];
    assert!(rt; add_up(rt.alloc(), &entries, &[], &[(3, Weight(2))])?);
    assert!(rt; add_up(rt.alloc(), &entries, &entries, &[(3, Weight(4))])?);
    assert!(rt; negates(rt.alloc(), &entries, &[(3, Weight(u64::MAX - 1))])?);
    let twice = [
        [(5, Weight(1)), (3, Weight(2)), (5, Weight(u64::MAX))],
        [(5, Weight(1)), (3, Weight(2)), (5, Weight(u64::MAX))],
    ];
    assert!(rt; merge_into(rt.alloc(), &twice, &[(3, Weight(4))])?);
    Ok(())
}

#[test]
fn batches_stay_in_order(rt: HostRuntime) -> Result<(), Fail> {
    let left = [(9, Weight(1)), (2, Weight(5)), (4, Weight(7))];
    let right = [(4, Weight(7).negate()), (1, Weight(6)), (9, Weight(1))];
    let sum = [(1, Weight(6)), (2, Weight(5)), (9, Weight(2))];
    assert!(rt; add_up(rt.alloc(), &left, &right, &sum)?);
    assert!(rt; second_of_three(rt.alloc(), &sum)? == Some((2, Weight(5))));
    let both = [
        [(9, Weight(1)), (2, Weight(5)), (4, Weight(7))],
        [(4, Weight(7).negate()), (1, Weight(6)), (9, Weight(1))],
        [GONE, GONE, GONE],
    ];
    assert!(rt; merge_into(rt.alloc(), &both, &sum)?);
    assert!(rt; Batch::<u32>::empty(rt.alloc()).is_empty());
    Ok(())
}

#[test]
fn sorted_entries_add_up(rt: HostRuntime) -> Result<(), Fail> {
    let list = pair(rt.alloc(), (3, Weight(2)), (3, Weight(5)))?;
    let sum = Batch::from_sorted(list);
    assert!(rt; has(&sum, &[(3, Weight(7))]));
    Ok(())
}

#[test]
fn entries_come_back(rt: HostRuntime) -> Result<(), Fail> {
    let entries = [(8, Weight(5)), (3, Weight(2))];
    let rising = [(3, Weight(2)), (8, Weight(5))];
    assert!(rt; come_back(rt.alloc(), &entries, &rising)?);
    Ok(())
}

#[test]
fn none_one_and_five_merge(rt: HostRuntime) -> Result<(), Fail> {
    let five = [
        [(6, Weight(1)), (2, Weight(4)), GONE],
        [(9, Weight(3)), GONE, GONE],
        [(2, Weight(1)), (1, Weight(8)), GONE],
        [(6, Weight(1).negate()), GONE, GONE],
        [(5, Weight(2)), (9, Weight(3)), GONE],
    ];
    let sum = [
        (1, Weight(8)),
        (2, Weight(5)),
        (5, Weight(2)),
        (9, Weight(6)),
    ];
    let one = [(2, Weight(4)), (6, Weight(1))];
    assert!(rt; merge_into(rt.alloc(), &five, &sum)?);
    assert!(rt; merge_into(rt.alloc(), &five[..1], &one)?);
    assert!(rt; merge_into(rt.alloc(), &[], &[])?);
    Ok(())
}
