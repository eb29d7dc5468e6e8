//! Lists of which the short ones lie one behind the other.

use change_lists::ChainedLists;
use graph_model::NodeNo;
use std::alloc::{AllocError, Global};
use std::test::Fail;
use surge_outside::{List, NoMemory};

// The items of a list.
fn push_items(alloc: Global, text: &mut String, items: &[NodeNo]) -> Result<(), AllocError> {
    for item in items {
        text.push_str(format!(in alloc; "{} ", item.0)?.as_str())?;
    }
    Ok(())
}

// The items of each list and of the place behind the last.
fn listed(alloc: Global, chained: &ChainedLists<NodeNo>) -> Result<String, AllocError> {
    let mut text = String::new(alloc);
    for place in 0..chained.len().saturating_add(1) {
        push_items(alloc, &mut text, chained.at(place))?;
        text.push_str(";")?;
    }
    Ok(text)
}

// Adds these lists, long ones where it is said.
fn push_all(
    alloc: Global,
    chained: &mut ChainedLists<NodeNo>,
    lists: &[(bool, &[NodeNo])],
) -> Result<(), NoMemory> {
    for (is_long, list) in lists {
        if *is_long {
            chained.push_owned(List::from_vec(Vec::from_slice(alloc, list)?))?;
        } else {
            chained.push(list)?;
        }
    }
    Ok(())
}

#[test]
fn lists_are_told_apart(rt: HostRuntime) -> Result<(), Fail> {
    let lists: [(bool, &[NodeNo]); 3] = [
        (false, &[NodeNo(3)]),
        (false, &[]),
        (false, &[NodeNo(1), NodeNo(2)]),
    ];
    let mut chained = ChainedLists::with_room(rt.alloc(), 2, 1)?;
    push_all(rt.alloc(), &mut chained, &lists)?;
    assert_eq!(rt; listed(rt.alloc(), &chained)?.as_str(), "3 ;;1 2 ;;");
    chained.truncate(1);
    push_all(rt.alloc(), &mut chained, &[(false, &[NodeNo(4)])])?;
    assert_eq!(rt; listed(rt.alloc(), &chained)?.as_str(), "3 ;4 ;;");
    Ok(())
}

#[test]
fn long_lists_stand_among_short_ones(rt: HostRuntime) -> Result<(), Fail> {
    let lists: [(bool, &[NodeNo]); 4] = [
        (false, &[NodeNo(3)]),
        (true, &[NodeNo(5), NodeNo(6)]),
        (false, &[NodeNo(1), NodeNo(2)]),
        (true, &[]),
    ];
    let mut chained = ChainedLists::new(rt.alloc());
    push_all(rt.alloc(), &mut chained, &lists)?;
    assert_eq!(rt; listed(rt.alloc(), &chained)?.as_str(), "3 ;5 6 ;1 2 ;;;");
    chained.truncate(2);
    push_all(rt.alloc(), &mut chained, &[(true, &[NodeNo(7)])])?;
    assert_eq!(rt; listed(rt.alloc(), &chained)?.as_str(), "3 ;5 6 ;7 ;;");
    Ok(())
}

#[test]
fn shared_lists_stay_where_others_are_cut(rt: HostRuntime) -> Result<(), Fail> {
    let lists: [(bool, &[NodeNo]); 2] = [(true, &[NodeNo(5), NodeNo(6)]), (false, &[NodeNo(3)])];
    let mut chained = ChainedLists::new(rt.alloc());
    push_all(rt.alloc(), &mut chained, &lists)?;
    let shared = chained.shared(rt.alloc())?;
    chained.truncate(0);
    push_all(rt.alloc(), &mut chained, &[(true, &[NodeNo(7)])])?;
    assert_eq!(rt; listed(rt.alloc(), &shared)?.as_str(), "5 6 ;3 ;;");
    assert_eq!(rt; listed(rt.alloc(), &chained)?.as_str(), "7 ;;");
    Ok(())
}

// Adds those of the lists that are long ones, with the memory that they have.
fn push_shared(
    chained: &mut ChainedLists<NodeNo>,
    lists: &ChainedLists<NodeNo>,
) -> Result<(), NoMemory> {
    for place in 0..lists.len().saturating_add(1) {
        if let Some(list) = lists.shared_at(place)? {
            chained.push_shared(list)?;
        }
    }
    Ok(())
}

#[test]
fn a_single_list_is_shared(rt: HostRuntime) -> Result<(), Fail> {
    let mut chained = ChainedLists::new(rt.alloc());
    chained.push(&[NodeNo(3)])?;
    chained.push_copied(&[NodeNo(5), NodeNo(6)])?;
    let mut other = ChainedLists::new(rt.alloc());
    push_shared(&mut other, &chained)?;
    other.push(&[NodeNo(4)])?;
    assert_eq!(rt; listed(rt.alloc(), &other)?.as_str(), "5 6 ;4 ;;");
    other.truncate(0);
    assert_eq!(rt; listed(rt.alloc(), &chained)?.as_str(), "3 ;5 6 ;;");
    push_shared(&mut other, &chained)?;
    drop(chained);
    assert_eq!(rt; listed(rt.alloc(), &other)?.as_str(), "5 6 ;;");
    Ok(())
}
