//! What the plain run and the definitions say of views, counted anew.

ghost use Rattle.std.specs.Prelude.{◌≡◌, length, All, IfSome};
ghost use Rattle.vertex_lang.specs.Lone.{number_of};
ghost use Rattle.version_rows.specs.Courses.{IsScene};
ghost use Rattle.view_matrix.specs.Matrices.{IsView};

use crate::tests::views::arcs_at;
use graph_model::{Graph, ViewNo};
use lone_work::{count_first_work, count_work};
use result_tables::Table;
use std::alloc::Global;
use surge_outside::NoMemory;
use vertex_lang::{Program, Rounds, Updater, lone_run};
use view_matrix::Matrix;
use view_versions::{Versions, count_touched};

/// A program over a graph.
#[derive(Clone, Copy)]
pub(crate) struct Scene<'a> {
    pub(crate) program: &'a Program,
    pub(crate) graph: &'a Graph,
    pub(crate) rounds: u32,
    pub(crate) settles: bool,
}

/// How many rounds the program is run.
pub(crate) fn rounds_of(scene: Scene<'_>) -> Rounds
    ensures { number_of result ≡ scene.entry.rounds }
{
    if scene.settles {
        Rounds::Within(scene.rounds)
    } else {
        Rounds::For(scene.rounds)
    }
}

/// Whether a table is that of the plain run on a view.
pub(crate) fn is_lone<U: Updater>(
    alloc: Global,
    scene: Scene<'_>,
    matrix: &Matrix,
    view: ViewNo,
    table: &Table,
    updater: &mut U,
) -> Result<bool, NoMemory>
    requires scene { IsScene scene.program.now scene.graph.now scene.rounds }
    requires matrix { length matrix.now.live ≡ length scene.graph.now.ends }
    requires view { IsView matrix.now view }
{
    let arcs = arcs_at(alloc, scene.graph, scene.program.along, matrix, view)?;
    let lone = lone_run(
        alloc,
        scene.program,
        scene.graph,
        arcs.as_slice(),
        rounds_of(scene),
        updater,
    )?;
    Ok(table.outcome == lone.outcome && table.values.as_slice() == lone.values.as_slice())
}

/// The works of these views, each behind the one before it, and the first behind this one.
pub(crate) fn works_behind<U: Updater>(
    alloc: Global,
    scene: Scene<'_>,
    matrix: &Matrix,
    before: Option<ViewNo>,
    views: &[ViewNo],
    updater: &mut U,
) -> Result<u64, NoMemory>
    requires scene { IsScene scene.program.now scene.graph.now scene.rounds }
    requires matrix { length matrix.now.live ≡ length scene.graph.now.ends }
    requires before { IfSome before (IsView matrix.now) }
    requires views { All (IsView matrix.now) views.now }
{
    let mut last = before;
    let mut works: u64 = 0;
    for view in views {
        works = works.wrapping_add(work_behind(alloc, scene, matrix, last, *view, updater)?);
        last = Some(*view);
    }
    Ok(works)
}

// The work of a view behind another one, or behind none.
fn work_behind<U: Updater>(
    alloc: Global,
    scene: Scene<'_>,
    matrix: &Matrix,
    before: Option<ViewNo>,
    view: ViewNo,
    updater: &mut U,
) -> Result<u64, NoMemory>
    requires scene { IsScene scene.program.now scene.graph.now scene.rounds }
    requires matrix { length matrix.now.live ≡ length scene.graph.now.ends }
    requires before { IfSome before (IsView matrix.now) }
    requires view { IsView matrix.now view }
{
    let new = arcs_at(alloc, scene.graph, scene.program.along, matrix, view)?;
    match before {
        None => count_first_work(
            alloc,
            scene.program,
            scene.graph,
            new.as_slice(),
            scene.rounds,
            updater,
        ),
        Some(last) => {
            let old = arcs_at(alloc, scene.graph, scene.program.along, matrix, last)?;
            count_work(
                alloc,
                scene.program,
                scene.graph,
                new.as_slice(),
                old.as_slice(),
                scene.rounds,
                updater,
            )
        }
    }
}

/// The works of these views, each behind its own version in another matrix.
pub(crate) fn edit_works<U: Updater>(
    alloc: Global,
    scene: Scene<'_>,
    before: &Matrix,
    matrix: &Matrix,
    views: &[ViewNo],
    updater: &mut U,
) -> Result<u64, NoMemory>
    requires scene { IsScene scene.program.now scene.graph.now scene.rounds }
    requires matrix { length matrix.now.live ≡ length scene.graph.now.ends }
    requires former { length before.now.live ≡ length scene.graph.now.ends }
    requires old { All (IsView before.now) views.now }
    requires views { All (IsView matrix.now) views.now }
{
    let mut works: u64 = 0;
    for view in views {
        let old = arcs_at(alloc, scene.graph, scene.program.along, before, *view)?;
        let new = arcs_at(alloc, scene.graph, scene.program.along, matrix, *view)?;
        works = works.wrapping_add(count_work(
            alloc,
            scene.program,
            scene.graph,
            new.as_slice(),
            old.as_slice(),
            scene.rounds,
            updater,
        )?);
    }
    Ok(works)
}

/// What the touched nodes allow: so many calls for each view and round.
pub(crate) fn most_works<U: Updater>(
    alloc: Global,
    scene: Scene<'_>,
    before: &Matrix,
    matrix: &Matrix,
    views: &[ViewNo],
    updater: &mut U,
) -> Result<u64, NoMemory>
    requires scene { IsScene scene.program.now scene.graph.now scene.rounds }
    requires matrix { length matrix.now.live ≡ length scene.graph.now.ends }
    requires former { length before.now.live ≡ length scene.graph.now.ends }
    requires old { All (IsView before.now) views.now }
    requires views { All (IsView matrix.now) views.now }
{
    let versions = Versions {
        program: scene.program,
        graph: scene.graph,
        rounds: rounds_of(scene),
        old: before,
        new: matrix,
    };
    let touched = count_touched(alloc, versions, views, updater)?;
    Ok(
        touched
            .wrapping_mul(views.len() as u64)
            .wrapping_mul(u64::from(scene.rounds)),
    )
}
