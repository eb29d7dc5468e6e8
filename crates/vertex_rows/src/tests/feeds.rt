//! What has to be fed so that views stand at their times.

use crate::tests::views::arcs_at;
use flow_rows::{Fed, Timed, note, sum_to};
use graph_model::{Graph, NodeNo};
use lattice_time::{Pair, Position, Time, Version};
use std::alloc::Global;
use surge_outside::{List, NoMemory};
use vertex_items::FlowInput;
use vertex_lang::Along;
use weighted::{Batch, Weight};

/// A time, and the bits of the view that stands there.
pub(crate) type Stand<T> = (T, u32);

/// A version of the edges, and the position of a view.
pub(crate) type Place = Pair<Version, Position>;

/// The nodes of a graph and the arcs of a view, each once.
fn whole(
    alloc: Global,
    graph: &Graph,
    along: Along,
    bits: u32,
) -> Result<Batch<FlowInput>, NoMemory> {
    let mut entries = List::new(alloc);
    for node in 0..graph.node_count() {
        entries.push((FlowInput::Node(NodeNo(node)), Weight(1)))?;
    }
    let arcs = arcs_at(alloc, graph, along, bits)?;
    for arc in arcs.as_slice() {
        entries.push((FlowInput::Arc(*arc), Weight(1)))?;
    }
    Batch::from_entries(entries)
}

/// What has to be fed at each of these times, one behind the other, so that what is fed up to a time is its view.
pub(crate) fn feeds<T: Time>(
    alloc: Global,
    graph: &Graph,
    along: Along,
    views: &[Stand<T>],
) -> Result<List<Fed<T, FlowInput>>, NoMemory> {
    let mut fed: List<Timed<T, FlowInput>> = List::new(alloc);
    let mut feeds = List::new(alloc);
    for (at, bits) in views {
        let before = sum_to(alloc, &fed, *at)?.negate()?;
        let delta = whole(alloc, graph, along, *bits)?.add(&before)?;
        note(&mut fed, &delta, *at)?;
        feeds.push(Fed { at: *at, delta })?;
    }
    Ok(feeds)
}

/// These views at the positions from 1 on.
pub(crate) fn at_positions(
    alloc: Global,
    views: &[u32],
) -> Result<List<Stand<Position>>, NoMemory> {
    let mut stands = List::new(alloc);
    let mut place: u32 = 1;
    for bits in views {
        stands.push((Position(place), *bits))?;
        place = place.wrapping_add(1);
    }
    Ok(stands)
}

/// How many versions, and how many positions a grid has.
const SIDE: u32 = 4;

/// The bits of the view at a place, drawn from both numbers.
fn bits_at(version: u32, position: u32) -> u32 {
    let mut state: u64 = (version as u64)
        .wrapping_mul(31)
        .wrapping_add(position as u64 * 7 + 5);
    for _ in 0..5 {
        state = state
            .wrapping_mul(6_364_136_223_846_793_005)
            .wrapping_add(1_442_695_040_888_963_407);
    }
    (state >> 33) as u32
}

/// Views at the places of a grid.
pub(crate) fn at_places(alloc: Global) -> Result<List<Stand<Place>>, NoMemory> {
    let mut stands = List::new(alloc);
    for place in 0..SIDE * SIDE {
        let (version, position) = (place / SIDE, place % SIDE);
        let at = Pair {
            outer: Version(version),
            inner: Position(position),
        };
        stands.push((at, bits_at(version, position)))?;
    }
    Ok(stands)
}
