//! An engine that is driven through edits.

ghost use Rattle.std.specs.Prelude.{◌≡◌, ◌≤◌, [], false, length, All, OnOk};
ghost use Rattle.version_rows.specs.Courses.{IsCourse, IsScene};
ghost use Rattle.view_matrix.specs.Matrices.{IsView};
ghost use Rattle.view_versions.specs.Edits.{AreEdits, taken_back};
ghost use Rattle.view_versions.specs.Engines.{IsEngine, views_run};

use crate::tests::counting::Telling;
use crate::tests::slow::{Scene, edit_works, is_lone, most_works, rounds_of, works_behind};
use crate::tests::views::{drawn_changes, drawn_live};
use draws::Draws;
use edge_predicates::ViewRule;
use graph_model::{EdgeNo, ViewNo};
use std::alloc::Global;
use surge_outside::NoMemory;
use vertex_lang::Updater;
use view_matrix::Matrix;
use view_order::views_from;
use view_versions::{VersionEngine, edits_are_taken_back};

/// Whether the table of each view is that of the plain run.
fn are_lone<U: Updater>(
    alloc: Global,
    scene: Scene<'_>,
    engine: &VersionEngine<'_>,
    matrix: &Matrix,
    slow: &mut U,
) -> Result<bool, NoMemory>
    requires scene { IsScene scene.program.now scene.graph.now scene.rounds }
    requires course { IsCourse U.answer scene.graph.now matrix.now engine.now }
{
    for view in engine.order().as_slice() {
        let table = engine.result(*view)?;
        if !is_lone(alloc, scene, matrix, *view, &table, slow)? {
            return Ok(false);
        }
    }
    Ok(true)
}

/// Runs the views of an engine: whether its tables and its calls are right.
fn begins<U: Updater + Telling>(
    alloc: Global,
    scene: Scene<'_>,
    engine: &mut VersionEngine<'_>,
    matrix: &Matrix,
    updater: &mut U,
) -> Result<bool, NoMemory>
    requires scene { IsScene scene.program.now scene.graph.now scene.rounds }
    requires size { length matrix.now.live ≡ length scene.graph.now.ends }
    requires graph { length matrix.now.live ≡ length engine.old.graph.now.ends }
    requires fresh { engine.old.spent ≡ false }
    requires engine { IsEngine engine.old }
    requires none { views_run engine.old ≡ [] }
    requires views { All (IsView matrix.now) engine.old.order }
    ensures course { OnOk result (IsCourse U.answer scene.entry.graph.now matrix.now engine.new) }
{
    let before = updater.told();
    engine.first(matrix, updater)?;
    let calls = updater.told().wrapping_sub(before);
    let views = engine.order().as_slice();
    let works = works_behind(alloc, scene, matrix, None, views, updater)?;
    Ok(calls == works && are_lone(alloc, scene, engine, matrix, updater)?)
}

/// Runs more views: whether its tables and its calls are right.
fn goes_on<U: Updater + Telling>(
    alloc: Global,
    scene: Scene<'_>,
    engine: &mut VersionEngine<'_>,
    matrix: &Matrix,
    views: &[ViewNo],
    updater: &mut U,
) -> Result<bool, NoMemory>
    requires scene { IsScene scene.program.now scene.graph.now scene.rounds }
    requires course { IsCourse U.answer scene.graph.now matrix.now engine.old }
    requires views { All (IsView matrix.now) views.now }
    ensures course { OnOk result (IsCourse U.answer scene.entry.graph.now matrix.now engine.new) }
{
    let last = engine.order().as_slice().last().copied();
    let before = updater.told();
    engine.more(matrix, views, updater)?;
    let calls = updater.told().wrapping_sub(before);
    let works = works_behind(alloc, scene, matrix, last, views, updater)?;
    Ok(calls == works && are_lone(alloc, scene, engine, matrix, updater)?)
}

/// Whether so many calls are the works of the views of an engine between two matrices, no more than what the touched nodes allow, and
/// its tables are right.
fn are_works<U: Updater>(
    alloc: Global,
    scene: Scene<'_>,
    engine: &VersionEngine<'_>,
    former: &Matrix,
    matrix: &Matrix,
    calls: u64,
    updater: &mut U,
) -> Result<bool, NoMemory>
    requires scene { IsScene scene.program.now scene.graph.now scene.rounds }
    requires size { length former.now.live ≡ length scene.graph.now.ends }
    requires old { All (IsView former.now) engine.now.order }
    requires course { IsCourse U.answer scene.graph.now matrix.now engine.now }
{
    let views = engine.order().as_slice();
    let works = edit_works(alloc, scene, former, matrix, views, updater)?;
    let most = most_works(alloc, scene, former, matrix, views, updater)?;
    Ok(calls == works && calls <= most && are_lone(alloc, scene, engine, matrix, updater)?)
}

/// Whether the tables and the calls of an engine are right where it is brought from one matrix to another.
fn follows<U: Updater + Telling>(
    alloc: Global,
    scene: Scene<'_>,
    engine: &mut VersionEngine<'_>,
    former: &Matrix,
    matrix: &Matrix,
    changes: &[(EdgeNo, bool)],
    updater: &mut U,
) -> Result<bool, NoMemory>
    requires scene { IsScene scene.program.now scene.graph.now scene.rounds }
    requires former { former.now ≡ taken_back matrix.now changes.now }
    requires edits { AreEdits matrix.now changes.now }
    requires size { length matrix.now.live ≡ length former.now.live }
    requires course { IsCourse U.answer scene.graph.now former.now engine.old }
    ensures course { OnOk result (IsCourse U.answer scene.entry.graph.now matrix.now engine.new) }
{
    let before = updater.told();
    engine.advance(matrix, changes, updater)?;
    let calls = updater.told().wrapping_sub(before);
    are_works(alloc, scene, engine, former, matrix, calls, updater)
}

/// Turns drawn edges in both matrices, which are one: whether an engine follows.
fn edited<U: Updater + Telling>(
    alloc: Global,
    scene: Scene<'_>,
    engine: &mut VersionEngine<'_>,
    former: &mut Matrix,
    matrix: &mut Matrix,
    draws: &mut Draws,
    updater: &mut U,
) -> Result<bool, NoMemory>
    requires scene { IsScene scene.program.now scene.graph.now scene.rounds }
    requires same { former.old ≡ matrix.old }
    requires course { IsCourse U.answer scene.graph.now matrix.old engine.old }
    ensures same { OnOk result (former.new ≡ matrix.new) }
    ensures columns { OnOk result (matrix.new.columns ≡ matrix.old.columns) }
    ensures course { OnOk result (IsCourse U.answer scene.entry.graph.now matrix.new engine.new) }
{
    edits_are_taken_back();
    let changes = drawn_changes(alloc, matrix, scene.graph.edge_count(), draws)?;
    matrix.edit(&changes);
    let right = follows(alloc, scene, engine, former, matrix, &changes, updater)?;
    former.edit(&changes);
    Ok(right)
}

/// The same three times.
fn thrice<U: Updater + Telling>(
    alloc: Global,
    scene: Scene<'_>,
    engine: &mut VersionEngine<'_>,
    former: &mut Matrix,
    matrix: &mut Matrix,
    draws: &mut Draws,
    updater: &mut U,
) -> Result<bool, NoMemory>
    requires scene { IsScene scene.program.now scene.graph.now scene.rounds }
    requires same { former.old ≡ matrix.old }
    requires course { IsCourse U.answer scene.graph.now matrix.old engine.old }
    ensures same { OnOk result (former.new ≡ matrix.new) }
    ensures columns { OnOk result (matrix.new.columns ≡ matrix.old.columns) }
    ensures course { OnOk result (IsCourse U.answer scene.entry.graph.now matrix.new engine.new) }
{
    let mut right = true;
    for _edit in 0..3 {
        right &= edited(alloc, scene, engine, former, matrix, draws, updater)?;
    }
    Ok(right)
}

/// Whether an engine is right on its views behind each of six edits, with these views more behind the third.
fn goes_through<U: Updater + Telling>(
    alloc: Global,
    scene: Scene<'_>,
    engine: &mut VersionEngine<'_>,
    matrices: (Matrix, Matrix),
    views: &[ViewNo],
    draws: &mut Draws,
    updater: &mut U,
) -> Result<bool, NoMemory>
    requires scene { IsScene scene.program.now scene.graph.now scene.rounds }
    requires size { length matrices.1.live ≡ length scene.graph.now.ends }
    requires same { matrices.0 ≡ matrices.1 }
    requires more { All (IsView matrices.1) views.now }
    requires graph { length matrices.1.live ≡ length engine.old.graph.now.ends }
    requires fresh { engine.old.spent ≡ false }
    requires engine { IsEngine engine.old }
    requires none { views_run engine.old ≡ [] }
    requires views { All (IsView matrices.1) engine.old.order }
{
    let (mut former, mut matrix) = matrices;
    let (old, new) = (&mut former, &mut matrix);
    let begins = begins(alloc, scene, engine, new, updater)?;
    let first = thrice(alloc, scene, engine, old, new, draws, updater)?;
    let more = goes_on(alloc, scene, engine, new, views, updater)?;
    let last = thrice(alloc, scene, engine, old, new, draws, updater)?;
    Ok(begins && first && more && last)
}

/// Whether an engine on some of the views of these rules is right, with the others behind the third edit.
pub(crate) fn is_right<U: Updater + Telling>(
    alloc: Global,
    scene: Scene<'_>,
    rules: &[ViewRule],
    draws: &mut Draws,
    updater: &mut U,
) -> Result<bool, NoMemory>
    requires scene { IsScene scene.program.now scene.graph.now scene.rounds }
    requires rules { length rules.now ≤ 1_024 }
{
    let live = drawn_live(alloc, scene.graph, draws)?;
    let matrix = Matrix::build(alloc, scene.graph, &live, rules)?;
    let former = Matrix::build(alloc, scene.graph, &live, rules)?;
    let views = views_from(alloc, &matrix, 0)?;
    let all = views.as_slice();
    let count = draws.draw(all.len() as u32 + 1) as usize;
    let (graph, program, rounds) = (scene.graph, scene.program, rounds_of(scene));
    let mut engine = VersionEngine::new(alloc, graph, program, &all[..count], rounds)?;
    let (matrices, more) = ((former, matrix), &all[count..]);
    goes_through(alloc, scene, &mut engine, matrices, more, draws, updater)
}
