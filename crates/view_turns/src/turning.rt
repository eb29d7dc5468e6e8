//! The turns of a run.

ghost use Rattle.std.specs.Prelude.{◌≡◌, ◌+◌, ◌≤◌, ◌<◌, ◌++◌, ◌∷◌, [], false, length, IfOk, OnOk};
ghost use Rattle.draws.specs.Draws.{next_state, drawn};
ghost use Rattle.view_engine.specs.Engines.{IsEngine, Stands, AreFinished, IsSameRun, stepped_in};
ghost use Rattle.view_turns.specs.Turns.{unfinished, unfinished_from, chosen, after_draw, seeded, next_segment, done, HasTurned, IsTurned};

use draws::Draws;
use std::alloc::Global;
use surge_outside::NoMemory;
use vertex_lang::Updater;
use view_engine::{Engine, Turn};
use view_matrix::Matrix;
use view_segment::Segment;

// Adds the number of a segment, if it has a view which wasn't stepped.
fn push_unfinished(left: &mut Vec<u32>, number: u32, segment: &Segment) -> Result<(), NoMemory>
    ensures { OnOk result (left.new.items ≡ left.old.items ++ unfinished_from number (segment.now ∷ [])) }
{
    if segment.works().len() != segment.views().len() {
        left.push(number)?;
    }
    Ok(())
}

// The numbers of the segments that have a view which wasn't stepped, rising.
fn unfinished(alloc: Global, engine: &Engine) -> Result<Vec<u32>, NoMemory>
    requires { IsEngine engine.now }
    ensures { IfOk result (λ left. left.items ≡ unfinished engine.now) }
{
    let mut left = Vec::new(alloc);
    for number in 0..engine.segments() {
        push_unfinished(&mut left, number, engine.segment(number))?;
    }
    Ok(left)
}

// The place of the one that is turned next, of so many: the first, or the one that is drawn.
fn next_place(draws: &mut Option<Draws>, count: u32) -> u32
    requires { 1 ≤ count }
    ensures place { result ≡ chosen draws.old count }
    ensures draws { draws.new ≡ after_draw draws.old }
    ensures within { result < count }
{
    match *draws {
        Some(mut stream) => {
            let place = stream.draw(count);
            *draws = Some(stream);
            place
        }
        None => 0,
    }
}

// The stream of a seed, where turns are drawn.
fn stream(turns: Option<u64>) -> Option<Draws>
    ensures { result ≡ seeded turns }
{
    match turns {
        Some(seed) => Some(Draws::new(seed)),
        None => None,
    }
}

// Turns the segment that is chosen of those that have a view which wasn't stepped, if there is one.
fn turn_next<U: Updater>(
    alloc: Global,
    engine: &mut Engine,
    matrix: &Matrix,
    draws: &mut Option<Draws>,
    updater: &mut U,
) -> Result<Turn, NoMemory>
    requires engine { IsEngine engine.old }
    requires fresh { engine.old.spent ≡ false }
    requires stands { Stands U.answer matrix.now engine.old }
    ensures engine { IsEngine engine.new }
    ensures fresh { OnOk result (engine.new.spent ≡ false) }
    ensures stands { OnOk result (Stands U.answer matrix.now engine.new) }
    ensures moved { result ≡ Ok Turn.Moved → HasTurned (next_segment draws.old engine.old) engine.old engine.new (U.calls updater.old) (U.calls updater.new) }
    ensures draws { result ≡ Ok Turn.Moved → draws.new ≡ after_draw draws.old }
    ensures finished { result ≡ Ok Turn.Finished → AreFinished engine.new × (engine.new ≡ engine.old) × (updater.new ≡ updater.old) }
{
    let left = unfinished(alloc, engine)?;
    if left.is_empty() {
        return Ok(Turn::Finished);
    }
    let place = next_place(draws, left.len() as u32);
    engine.turn(matrix, left[place as usize], updater)
}

/// Turns segments until each view of the run was stepped: each time the first unfinished one, or, where turns are drawn, the
/// one that the stream of this seed draws.
pub fn finish<U: Updater>(
    alloc: Global,
    engine: &mut Engine,
    matrix: &Matrix,
    turns: Option<u64>,
    updater: &mut U,
) -> Result<(), NoMemory>
    requires engine { IsEngine engine.old }
    requires fresh { engine.old.spent ≡ false }
    requires stands { Stands U.answer matrix.now engine.old }
    ensures engine { IsEngine engine.new }
    ensures fresh { OnOk result (engine.new.spent ≡ false) }
    ensures stands { OnOk result (Stands U.answer matrix.now engine.new) }
    ensures finished { OnOk result (AreFinished engine.new) }
    ensures all { OnOk result (stepped_in engine.new ≡ length engine.new.order) }
    ensures run { OnOk result (IsSameRun engine.old engine.new) }
    ensures order { OnOk result (engine.new.order ≡ engine.old.order) }
    ensures turns { OnOk result (IsTurned U.answer matrix.now (seeded turns) engine.old engine.new (U.calls updater.old) (U.calls updater.new)) }
    ensures calls { OnOk result (U.calls updater.new + done engine.old ≡ U.calls updater.old + done engine.new) }
{
    let mut draws = stream(turns);
    for _turn in 0..engine.order().len() {
        match turn_next(alloc, engine, matrix, &mut draws, updater) {
            Ok(Turn::Moved) => {}
            Ok(Turn::Finished) => return Ok(()),
            Err(NoMemory) => return Err(NoMemory),
        }
    }
    Ok(())
}
