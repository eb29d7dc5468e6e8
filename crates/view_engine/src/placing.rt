//! Where a view is put, and how views that were put are taken off again.

ghost use Rattle.std.specs.Prelude.{◌≡◌, ◌≤◌, false, List, length, IfOk, OnOk, OnErr};
ghost use Rattle.view_engine.specs.Assigning.{fresh, put, IsMark, AreGrown};

use graph_model::ViewNo;
use std::alloc::Global;
use surge_outside::NoMemory;
use view_segment::Segment;

// A segment of one view.
fn fresh(alloc: Global, view: ViewNo) -> Result<Segment, NoMemory>
    ensures { IfOk result (λ segment. segment ≡ fresh view) }
{
    let mut segment = Segment::new(alloc);
    segment.add(view)?;
    Ok(segment)
}

/// Puts a view in a segment of its own, or at the end of the last one. The error is want of memory, and it leaves the
/// segments as they were.
pub(crate) fn put(
    alloc: Global,
    segments: &mut Vec<Segment>,
    view: ViewNo,
    anew: bool,
) -> Result<(), NoMemory>
    requires { anew ≡ false → 1 ≤ length segments.old.items }
    ensures ok { OnOk result (segments.new.items ≡ put anew segments.old.items view) }
    ensures err { OnErr result (segments.new.items ≡ segments.old.items) }
{
    if anew {
        let segment = fresh(alloc, view)?;
        segments.push(segment)?;
    } else {
        let last = segments.len() - 1;
        segments[last].add(view)?;
    }
    Ok(())
}

/// How many segments there are, and how many views the last of them has.
#[derive(Clone, Copy, Debug)]
pub(crate) struct Mark {
    segments: usize,
    views: usize,
}

/// How far these segments go.
pub(crate) fn mark_of(segments: &[Segment]) -> Mark
    ensures { IsMark segments.now result }
{
    if segments.is_empty() {
        return Mark {
            segments: 0,
            views: 0,
        };
    }
    Mark {
        segments: segments.len(),
        views: segments[segments.len() - 1].views().len(),
    }
}

/// Takes off what was put since the mark was made: the segments are what they were.
pub(crate) fn cut(segments: &mut Vec<Segment>, mark: Mark)
    requires { mark.segments ≤ length segments.old.items }
    ensures { (before : List Segment) → IsMark before mark → AreGrown before segments.old.items → segments.new.items ≡ before }
{
    segments.truncate(mark.segments);
    if mark.segments > 0 {
        segments[mark.segments - 1].keep_first(mark.views);
    }
}
