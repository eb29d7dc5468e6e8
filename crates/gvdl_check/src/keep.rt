//! Runs that are kept under a name.

ghost use Rattle.std.specs.Prelude.{◌≡◌, ◌<◌, ◌^◌, length};
ghost use Rattle.gvdl_programs.specs.Judging.{Leaves};
ghost use Rattle.gvdl_check.specs.Plans.{kept_among, keep_added};

use crate::names::{Meaning, Names};
use crate::plan::RunPlan;
use gvdl_programs::{Refusal, Stop};
use std::alloc::Global;
use surge_outside::Text;

/// So many runs are kept at most.
const KEEP_LIMIT: usize = 64;

// How many of the runs are kept.
fn kept_among(runs: &[RunPlan]) -> usize
    ensures { result ≡ kept_among runs.now }
{
    let mut kept = 0;
    for run in runs {
        if run.keep.is_some() {
            kept += 1;
        }
    }
    kept
}

/// Takes the name under which the run behind these is kept, where it is.
pub(crate) fn add_keep(
    alloc: Global,
    names: &mut Names,
    runs: &[RunPlan],
    keep: &Option<Text>,
) -> Result<(), Stop>
    requires { length runs.now < 2 ^ 32 }
    ensures told { Leaves (keep_added names.old runs.now keep.now) result names.new }
{
    match keep {
        None => Ok(()),
        Some(name) => {
            names.expect_new(name.as_str())?;
            if kept_among(runs) >= KEEP_LIMIT {
                return Err(Stop::Refused(Refusal::TooManyKept));
            }
            names.add(alloc, name.as_str(), Meaning::Kept(runs.len() as u32))?;
            Ok(())
        }
    }
}
