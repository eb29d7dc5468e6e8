//! Programs in phases on views of versions of a graph, and the times at which the views stand.

ghost use Rattle.std.specs.Prelude.{◌≡◌, ◌<◌, length, All, IfOk};
ghost use Rattle.vertex_lang.specs.Arcs.{IsArc};

use crate::tests::runs::{Rule, matrix_over};
use graph_model::{EdgeNo, Graph, ViewNo};
use lattice_time::{Pair, Position, Time, Version};
use std::alloc::Global;
use surge_outside::{List, NoMemory};
use vertex_lang::{Arc, Program, arcs_of};
use view_matrix::Matrix;

/// A program in phases over views of a graph, of which in each version other edges are live.
#[derive(Clone, Copy)]
pub(crate) struct Case<'c> {
    pub(crate) graph: &'c Graph,
    pub(crate) program: &'c Program,
    pub(crate) views: &'c [Rule],
    pub(crate) rounds: u32,
    pub(crate) phases: u32,
    /// What is live in the later versions is drawn from this number.
    pub(crate) seed: u64,
}

/// A version of the edges, and the position of a view.
#[derive(Clone, Copy)]
pub(crate) struct Place {
    pub(crate) version: u32,
    pub(crate) position: u32,
}

/// Times at which the views of versions stand.
pub(crate) trait Placed: Time {
    fn at(place: Place) -> Self;

    /// How many versions there are.
    fn versions() -> u32;
}

/// One version, whose positions begin at 1.
impl Placed for Position {
    fn at(place: Place) -> Position {
        Position(place.position.saturating_add(1))
    }

    fn versions() -> u32 {
        1
    }
}

impl Placed for Pair<Version, Position> {
    fn at(place: Place) -> Pair<Version, Position> {
        Pair {
            outer: Version(place.version),
            inner: Position(place.position),
        }
    }

    fn versions() -> u32 {
        3
    }
}

// Pushes the places of the views of a version.
fn push_places(places: &mut List<Place>, version: u32, views: &[Rule]) -> Result<(), NoMemory> {
    let mut position: u32 = 0;
    for _view in views {
        places.push(Place { version, position })?;
        position = position.wrapping_add(1);
    }
    Ok(())
}

/// The places of the views in each version, one version behind the other.
pub(crate) fn places(
    alloc: Global,
    versions: u32,
    views: &[Rule],
) -> Result<List<Place>, NoMemory> {
    let mut places = List::new(alloc);
    for version in 0..versions {
        push_places(&mut places, version, views)?;
    }
    Ok(places)
}

// Which edges are live in a version: all of them in the first one.
fn live_in(alloc: Global, case: Case<'_>, version: u32) -> Result<List<bool>, NoMemory>
    ensures { IfOk result (λ live. length live ≡ length case.entry.graph.now.ends) }
{
    let mut state = case.seed.wrapping_add(version as u64);
    let mut live = List::new(alloc);
    for _edge in 0..case.graph.edge_count() {
        state = state
            .wrapping_mul(6_364_136_223_846_793_005)
            .wrapping_add(1_442_695_040_888_963_407);
        live.push(version == 0 || state >> 40 & 3 > 0)?;
    }
    Ok(live)
}

/// The matrix of the views in a version.
pub(crate) fn matrix_in(alloc: Global, case: Case<'_>, version: u32) -> Result<Matrix, NoMemory>
    ensures { IfOk result (λ matrix. length matrix.live ≡ length case.entry.graph.now.ends) }
{
    let live = live_in(alloc, case, version)?;
    matrix_over(alloc, case.graph, &live, case.views)
}

// The edges of a view that the graph has, which are all of them.
fn edges_of(
    alloc: Global,
    graph: &Graph,
    matrix: &Matrix,
    position: u32,
) -> Result<Vec<EdgeNo>, NoMemory>
    ensures { IfOk result (λ edges. All (λ e. e.0 < length graph.now.ends) edges.items) }
{
    let mut edges = Vec::new(alloc);
    if position >= matrix.views() {
        return Ok(edges);
    }
    for edge in matrix.edges(alloc, ViewNo(position))?.as_slice() {
        if edge.0 < graph.edge_count() {
            edges.push(*edge)?;
        }
    }
    Ok(edges)
}

/// The arcs of the view at a place.
pub(crate) fn arcs_at(alloc: Global, case: Case<'_>, place: Place) -> Result<List<Arc>, NoMemory>
    ensures { IfOk result (λ arcs. All (IsArc case.entry.graph.now) arcs) }
{
    let matrix = matrix_in(alloc, case, place.version)?;
    let edges = edges_of(alloc, case.graph, &matrix, place.position)?;
    arcs_of(alloc, case.graph, case.program.along, edges.as_slice())
}
