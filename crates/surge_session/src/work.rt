//! The text of the work of a run.

ghost use Rattle.std.specs.Prelude.{◌≡◌, ◌<◌, ◌≤◌, ◌++◌, length, codes, All, IfOk, OnOk, OnErr};
ghost use Rattle.std.specs.Fmt.{decimal};
ghost use Rattle.result_tables.specs.TableText.{line_end};
ghost use Rattle.view_order.specs.Greedy.{numbers};
ghost use Rattle.view_segment.specs.Segments.{IsFinished};
ghost use Rattle.view_engine.specs.Engines.{IsEngine, AreFinished, segments_in};
ghost use Rattle.surge_session.specs.Output.{segment_lines};
ghost use Rattle.surge_outside.specs.Counts.{HasRisen};
ghost use Rattle.surge_outside.specs.Written.{GrewByFront, appended};
ghost use Rattle.surge_session.specs.WorkLines.{TellsWork, engine_text, lines_of};

use crate::kept::RunEngine;
use gvdl_check::ViewPlan;
use std::alloc::Global;
use surge_outside::{NoMemory, Sink, Trouble, put_all};
use view_engine::Engine;
use view_segment::Segment;

// Adds the line of a view, with the number of its segment and its work.
fn push_line(
    alloc: Global,
    text: &mut Vec<u8>,
    name: &str,
    segment: u32,
    work: u64,
) -> Result<(), NoMemory>
    ensures { OnOk result (text.new.items ≡ text.old.items ++ (name.now ++ (codes " " ++ (decimal segment ++ (codes " " ++ (decimal work ++ line_end)))))) }
{
    text.extend_from_slice(name.as_bytes())?;
    let rest = format!(in alloc; " {segment} {work}\n")?;
    text.extend_from_slice(rest.as_bytes())?;
    Ok(())
}

// Adds the lines of a segment with this number, which counts from 1.
fn push_segment(
    alloc: Global,
    text: &mut Vec<u8>,
    views: &[ViewPlan],
    number: u32,
    segment: &Segment,
) -> Result<(), NoMemory>
    requires finished { IsFinished segment.now }
    requires views { All (λ view. view.0 < length views.now) segment.now.views }
    ensures { OnOk result (text.new.items ≡ text.old.items ++ segment_lines views.now number (numbers segment.now.views) segment.now.works) }
{
    for (i, work) in segment.works().iter().enumerate() {
        let view = segment.views()[i];
        push_line(
            alloc,
            text,
            views[view.0 as usize].name.as_str(),
            number,
            *work,
        )?;
    }
    Ok(())
}

// Adds the lines of all segments.
fn push_segments(
    alloc: Global,
    text: &mut Vec<u8>,
    views: &[ViewPlan],
    engine: &Engine,
) -> Result<(), NoMemory>
    requires engine { IsEngine engine.now }
    requires finished { AreFinished engine.now }
    requires views { All (λ s. All (λ view. view.0 < length views.now) s.views) (segments_in engine.now) }
    ensures { OnOk result (text.new.items ≡ text.old.items ++ lines_of views.now 1 (segments_in engine.now)) }
{
    for number in 0..engine.segments() {
        push_segment(alloc, text, views, number + 1, engine.segment(number))?;
    }
    Ok(())
}

// The text of the work of a run, of which these are the views of its collection, under this name.
fn work_text(
    alloc: Global,
    name: &str,
    views: &[ViewPlan],
    engine: &Engine,
) -> Result<Vec<u8>, NoMemory>
    requires engine { IsEngine engine.now }
    requires finished { AreFinished engine.now }
    requires views { All (λ s. All (λ view. view.0 < length views.now) s.views) (segments_in engine.now) }
    ensures { IfOk result (λ text. text.items ≡ codes "work " ++ (name.now ++ (line_end ++ (lines_of views.now 1 (segments_in engine.now) ++ (codes "end" ++ line_end))))) }
{
    let mut text = format!(in alloc; "work {name}\n")?.into_bytes();
    push_segments(alloc, &mut text, views, engine)?;
    text.extend_from_slice(b"end\n")?;
    Ok(text)
}

/// Writes the text of the work of a run whose engine shares work, under this name. These are the views of its collection.
pub(crate) fn write_work<O: Sink>(
    alloc: Global,
    name: &str,
    views: &[ViewPlan],
    engine: &RunEngine,
    out: &mut O,
) -> Result<(), Trouble>
    requires { TellsWork views.now engine.now }
    ensures ok { OnOk result (O.written out.new ≡ appended (O.written out.old) (engine_text name.now views.now engine.now)) }
    ensures err { OnErr result (GrewByFront (O.written out.old) (O.written out.new) (engine_text name.now views.now engine.now)) }
    ensures faults { O.faults out.old ≤ O.faults out.new }
    ensures failed { result ≡ Err Trouble.Failed → HasRisen (O.faults out.old) (O.faults out.new) }
{
    match engine {
        RunEngine::Plain(engine) => match work_text(alloc, name, views, engine) {
            Ok(text) => put_all(out, text.as_slice()),
            Err(NoMemory) => Err(Trouble::NoMemory),
        },
        _ => Ok(()),
    }
}
