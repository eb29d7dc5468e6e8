//! Graphs, programs and views that are drawn.

use crate::tests::cases::{Against, NODES, agrees};
use crate::tests::programs::drawn_choice;
use flow_rows::Draws;
use std::alloc::Global;
use std::test::Fail;
use surge_outside::NoMemory;

/// One of the ids.
fn drawn_id(draws: &mut Draws) -> &'static [u8] {
    match draws.draw(5) {
        0 => b"1",
        1 => b"4",
        2 => b"7",
        3 => b"10",
        _ => b"13",
    }
}

/// A file of up to eleven edges.
fn drawn_edges(alloc: Global, draws: &mut Draws) -> Result<Vec<u8>, NoMemory> {
    let mut text = Vec::new(alloc);
    text.extend_from_slice(b"src,dst\n")?;
    for _ in 0..draws.draw(12) {
        text.extend_from_slice(drawn_id(draws))?;
        text.push(44)?;
        text.extend_from_slice(drawn_id(draws))?;
        text.push(10)?;
    }
    Ok(text)
}

/// Four views of up to eleven edges, as bits.
fn drawn_views(draws: &mut Draws) -> [u32; 4] {
    [
        draws.draw(2048),
        draws.draw(2048),
        draws.draw(2048),
        draws.draw(2048),
    ]
}

/// Whether a drawn program makes the values of drawn views, one behind the other, and evaluates as many nodes as are
/// counted, both by the definition and by the kernel.
fn is_right_by_positions(alloc: Global, seed: u64) -> Result<bool, Fail> {
    let mut draws = Draws { state: seed };
    let choice = drawn_choice(&mut draws);
    let rounds = draws.draw(4) + 1;
    let edges = drawn_edges(alloc, &mut draws)?;
    let views = drawn_views(&mut draws);
    agrees(
        alloc,
        NODES,
        edges.as_slice(),
        choice,
        rounds,
        Against::Views(&views),
    )
}

/// Whether a drawn program makes the values of the views of a grid of versions and positions.
fn is_right_by_places(alloc: Global, seed: u64) -> Result<bool, Fail> {
    let mut draws = Draws { state: seed };
    let choice = drawn_choice(&mut draws);
    let rounds = draws.draw(4) + 1;
    let edges = drawn_edges(alloc, &mut draws)?;
    agrees(
        alloc,
        NODES,
        edges.as_slice(),
        choice,
        rounds,
        Against::Grid,
    )
}

/// Whether a drawn program makes what an engine over versions has of drawn views whose edges come and go.
fn is_right_by_edits(alloc: Global, seed: u64) -> Result<bool, Fail> {
    let mut draws = Draws { state: seed };
    let choice = drawn_choice(&mut draws);
    let rounds = draws.draw(4) + 1;
    let edges = drawn_edges(alloc, &mut draws)?;
    let against = Against::Edits(seed);
    agrees(alloc, NODES, edges.as_slice(), choice, rounds, against)
}

#[test]
fn drawn_views_one_behind_the_other(rt: HostRuntime) -> Result<(), Fail> {
    for seed in 0..60 {
        assert!(rt; is_right_by_positions(rt.alloc(), seed)?);
    }
    Ok(())
}

#[test]
fn drawn_programs_over_versions_and_positions(rt: HostRuntime) -> Result<(), Fail> {
    for seed in 100..116 {
        assert!(rt; is_right_by_places(rt.alloc(), seed)?);
    }
    Ok(())
}

#[test]
fn drawn_edits_of_an_engine_over_versions(rt: HostRuntime) -> Result<(), Fail> {
    for seed in 200..216 {
        assert!(rt; is_right_by_edits(rt.alloc(), seed)?);
    }
    Ok(())
}
