//! Drawn edges and lists of changes, against rows that are counted anew behind each list.

ghost use Rattle.std.specs.Prelude.{◌<◌};

use crate::tests::courses::{changes_of, course};
use crate::tests::texts::push_row;
use aggregate_views::{Cell, GroupRow};
use std::alloc::{AllocError, Global};
use std::test::Fail;
use surge_outside::NoMemory;

const EDGES: u32 = 24;

const LISTS: u32 = 16;

const NODES: &[u8] = b"id,g:int\n0,\n1,7\n2,-5\n3,0\n4,7\n5,\n";

/// An edge between groups, each by its place among the groups, and its number, which counts as 0 where there is none.
#[derive(Clone, Copy)]
struct DrawnEdge {
    from: u32,
    to: u32,
    number: i64,
}

// The next number of a linear congruential generator, below `bound`.
fn draw(state: &mut u64, bound: u32) -> u32
    requires { 0 < bound }
    ensures { result < bound }
{
    *state = state
        .wrapping_mul(6364136223846793005)
        .wrapping_add(1442695040888963407);
    (*state >> 33) as u32 % bound
}

// The place of a node's group: of the absent cell, -5, 0 and 7.
fn place_of(node: u32) -> u32 {
    match node {
        0 | 5 => 0,
        2 => 1,
        3 => 2,
        _ => 3,
    }
}

// The group at a place.
fn cell_at(place: u32) -> Cell {
    match place {
        0 => Cell::Absent,
        1 => Cell::Int(-5),
        2 => Cell::Int(0),
        _ => Cell::Int(7),
    }
}

// Draws an edge, and writes it into a file; each fourth, or so, has no number.
fn drawn_edge(alloc: Global, state: &mut u64, file: &mut String) -> Result<DrawnEdge, AllocError> {
    let from = draw(state, 6);
    let to = draw(state, 6);
    let number = i64::from(draw(state, 200)) - 100;
    let has_number = draw(state, 4) > 0;
    if has_number {
        file.push_str(format!(in alloc; "{from},{to},{number}\n")?.as_str())?;
    } else {
        file.push_str(format!(in alloc; "{from},{to},\n")?.as_str())?;
    }
    Ok(DrawnEdge {
        from: place_of(from),
        to: place_of(to),
        number: if has_number { number } else { 0 },
    })
}

// Draws the edges, and writes them into a file.
fn drawn_edges(
    alloc: Global,
    state: &mut u64,
    file: &mut String,
) -> Result<Vec<DrawnEdge>, AllocError> {
    let mut edges = Vec::new(alloc);
    file.push_str("src,dst,w:int\n")?;
    for _ in 0..EDGES {
        edges.push(drawn_edge(alloc, state, file)?)?;
    }
    Ok(edges)
}

// Lets the other come of two, an edge that is there and one that isn't; says whether it is there then.
fn turned(present: &mut [bool], e: usize) -> bool {
    match present.get_mut(e) {
        Some(is_present) => {
            *is_present = !*is_present;
            *is_present
        }
        None => false,
    }
}

// Draws lists of changes, in each of which an edge may turn any number of times.
fn drawn_turns(alloc: Global, state: &mut u64) -> Result<Vec<u8>, AllocError> {
    let mut present = vec![in alloc; false; EDGES as usize]?;
    let mut turns = Vec::new(alloc);
    for _ in 0..LISTS {
        for _ in 0..draw(state, 8) {
            let e = draw(state, EDGES);
            let comes = turned(present.as_mut_slice(), e as usize);
            turns.push(if comes { b'+' } else { b'-' })?;
            turns.push(b'a' + e as u8)?;
        }
        turns.push(b'/')?;
    }
    Ok(turns)
}

// How many of the present edges go between two groups, and the sum of their numbers.
fn counted(edges: &[DrawnEdge], present: &[bool], from: u32, to: u32) -> (u64, i64) {
    let mut count = 0u64;
    let mut sum = 0i64;
    for (edge, is_present) in edges.iter().zip(present) {
        if *is_present && edge.from == from && edge.to == to {
            count = count.wrapping_add(1);
            sum = sum.wrapping_add(edge.number);
        }
    }
    (count, sum)
}

// Adds the rows of the present edges, counted anew.
fn push_counted(
    alloc: Global,
    text: &mut String,
    edges: &[DrawnEdge],
    present: &[bool],
) -> Result<(), AllocError> {
    for pair in 0..16u32 {
        let (count, sum) = counted(edges, present, pair / 4, pair % 4);
        if count > 0 {
            let row = GroupRow {
                from: cell_at(pair / 4),
                to: cell_at(pair % 4),
                count,
                sum: i128::from(sum),
            };
            push_row(alloc, text, &row)?;
        }
    }
    text.push_str("\n")
}

// The rows behind each list, counted anew.
fn counted_course(alloc: Global, edges: &[DrawnEdge], turns: &[u8]) -> Result<String, NoMemory> {
    let mut present = vec![in alloc; false; EDGES as usize]?;
    let mut text = String::new(alloc);
    for list in 0..LISTS {
        for (e, _) in changes_of(alloc, turns, list)?.as_slice() {
            let _is_there = turned(present.as_mut_slice(), e.0 as usize);
        }
        push_counted(alloc, &mut text, edges, present.as_slice())?;
    }
    Ok(text)
}

// Whether the groups and the count agree on what is drawn from a number.
fn agrees(alloc: Global, seed: u64) -> Result<bool, Fail> {
    let mut state = seed;
    let mut file = String::new(alloc);
    let edges = drawn_edges(alloc, &mut state, &mut file)?;
    let turns = drawn_turns(alloc, &mut state)?;
    let text = course(
        alloc,
        NODES,
        file.as_bytes(),
        Some(0),
        LISTS,
        turns.as_slice(),
    )?;
    let anew = counted_course(alloc, edges.as_slice(), turns.as_slice())?;
    Ok(text.as_str() == anew.as_str())
}

#[test]
fn drawn_lists_agree(rt: HostRuntime) -> Result<(), Fail> {
    for seed in 1..21u64 {
        assert!(rt; agrees(rt.alloc(), seed)?);
    }
    Ok(())
}
