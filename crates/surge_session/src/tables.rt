//! The tables of several views.

ghost use Rattle.std.specs.Prelude.{◌≡◌, ◌≤◌, None, flat_map, length, map, take, slice_range, OnOk, OnErr};
ghost use Rattle.surge_outside.specs.Counts.{HasRisen};
ghost use Rattle.surge_outside.specs.Written.{GrewByFront, appended};
ghost use Rattle.change_text.specs.Spelling.{changes_text};
ghost use Rattle.surge_session.specs.Output.{blocks_behind, is_changes, tables_text, view_shown, view_text};
ghost use Rattle.surge_session.specs.State.{Shows, ShowsLive, HasRunIn, rules_of, shown_graph};

use crate::setting::RanViews;
use crate::view::{write_block, write_view};
use graph_model::ViewNo;
use gvdl_check::ViewPlan;
use result_tables::{Form, Table};
use std::alloc::Global;
use surge_outside::{Sink, Trouble};
use vertex_lang::Updater;

// Writes the tables of these views, which were run, one after the other, each in full or as a
// line. In the matrix of the collection they stand from number `first` on.
fn write_texts<O: Sink, U: Updater>(
    alloc: Global,
    ran: RanViews,
    views: &[ViewPlan],
    first: u32,
    form: Form,
    out: &mut O,
) -> Result<(), Trouble>
    requires shown { Shows (shown_graph ran.graph.now ran.matrix.now) ran.matrix.now first views.now }
    requires has { HasRunIn U.answer ran.graph.now ran.run.now ran.matrix.now ran.engine.now }
    ensures ok { OnOk result (O.written out.new ≡ appended (O.written out.old) (flat_map (view_text U.answer form (shown_graph ran.entry.graph.now ran.entry.matrix.now) ran.entry.run.now ran.entry.collection.now.name) views.now)) }
    ensures err { OnErr result (GrewByFront (O.written out.old) (O.written out.new) (flat_map (view_text U.answer form (shown_graph ran.entry.graph.now ran.entry.matrix.now) ran.entry.run.now ran.entry.collection.now.name) views.now)) }
    ensures faults { O.faults out.old ≤ O.faults out.new }
    ensures failed { result ≡ Err Trouble.Failed → HasRisen (O.faults out.old) (O.faults out.new) }
{
    let _all = ran.matrix.views();
    for (i, view) in views.iter().enumerate() {
        let number = ViewNo(first + i as u32);
        if let Err(trouble) = write_view::<O, U>(alloc, ran, view, number, form, out) {
            return Err(trouble);
        }
    }
    Ok(())
}

// The same as blocks of a change text, each behind the one before it, and the first behind none.
fn write_blocks<O: Sink, U: Updater>(
    alloc: Global,
    ran: RanViews,
    views: &[ViewPlan],
    first: u32,
    out: &mut O,
) -> Result<(), Trouble>
    requires shown { Shows (shown_graph ran.graph.now ran.matrix.now) ran.matrix.now first views.now }
    requires has { HasRunIn U.answer ran.graph.now ran.run.now ran.matrix.now ran.engine.now }
    ensures ok { OnOk result (O.written out.new ≡ appended (O.written out.old) (changes_text (blocks_behind ran.entry.graph.now None (map (view_shown U.answer (shown_graph ran.entry.graph.now ran.entry.matrix.now) ran.entry.run.now ran.entry.collection.now.name) views.now)))) }
    ensures err { OnErr result (GrewByFront (O.written out.old) (O.written out.new) (changes_text (blocks_behind ran.entry.graph.now None (map (view_shown U.answer (shown_graph ran.entry.graph.now ran.entry.matrix.now) ran.entry.run.now ran.entry.collection.now.name) views.now)))) }
    ensures faults { O.faults out.old ≤ O.faults out.new }
    ensures failed { result ≡ Err Trouble.Failed → HasRisen (O.faults out.old) (O.faults out.new) }
{
    let _all = ran.matrix.views();
    let mut before: Option<Table> = None;
    for (i, view) in views.iter().enumerate() {
        let number = ViewNo(first + i as u32);
        match write_block::<O, U>(alloc, ran, view, number, before.as_ref(), out) {
            Ok(table) => before = Some(table),
            Err(trouble) => return Err(trouble),
        }
    }
    Ok(())
}

/// Whether the form is that of change texts.
pub(crate) fn is_changes(form: Form) -> bool
    ensures { result ≡ is_changes form }
{
    match form {
        Form::Tables => false,
        Form::Summary => false,
        Form::Changes => true,
    }
}

/// Writes the tables of these views, which were run, in this form. In the matrix of the
/// collection they stand from number `first` on.
pub(crate) fn write_tables<O: Sink, U: Updater>(
    alloc: Global,
    ran: RanViews,
    views: &[ViewPlan],
    first: u32,
    form: Form,
    out: &mut O,
) -> Result<(), Trouble>
    requires shown { Shows (shown_graph ran.graph.now ran.matrix.now) ran.matrix.now first views.now }
    requires has { HasRunIn U.answer ran.graph.now ran.run.now ran.matrix.now ran.engine.now }
    ensures ok { OnOk result (O.written out.new ≡ appended (O.written out.old) (tables_text U.answer form (shown_graph ran.entry.graph.now ran.entry.matrix.now) ran.entry.run.now ran.entry.collection.now.name views.now)) }
    ensures err { OnErr result (GrewByFront (O.written out.old) (O.written out.new) (tables_text U.answer form (shown_graph ran.entry.graph.now ran.entry.matrix.now) ran.entry.run.now ran.entry.collection.now.name views.now)) }
    ensures faults { O.faults out.old ≤ O.faults out.new }
    ensures failed { result ≡ Err Trouble.Failed → HasRisen (O.faults out.old) (O.faults out.new) }
{
    if is_changes(form) {
        return write_blocks::<O, U>(alloc, ran, views, first, out);
    }
    write_texts::<O, U>(alloc, ran, views, first, form, out)
}

/// The views from one place up to another.
pub(crate) fn views_between(views: &[ViewPlan], first: usize, end: usize) -> &[ViewPlan]
    requires order { first ≤ end }
    requires within { end ≤ length views.now }
    ensures { result.now ≡ slice_range views.now first end }
{
    &views[first..end]
}

/// Writes the tables of the views that a matrix has from number `first` on.
pub(crate) fn write_from<O: Sink, U: Updater>(
    alloc: Global,
    ran: RanViews,
    first: u32,
    form: Form,
    out: &mut O,
) -> Result<(), Trouble>
    requires live { length ran.matrix.now.live ≡ length ran.graph.now.ends }
    requires first { first ≤ length ran.matrix.now.columns }
    requires within { length ran.matrix.now.columns ≤ length ran.collection.now.views }
    requires shows { ShowsLive (shown_graph ran.graph.now ran.matrix.now) (rules_of (take (length ran.matrix.now.columns) ran.collection.now.views)) ran.matrix.now }
    requires has { HasRunIn U.answer ran.graph.now ran.run.now ran.matrix.now ran.engine.now }
    ensures ok { OnOk result (O.written out.new ≡ appended (O.written out.old) (tables_text U.answer form (shown_graph ran.entry.graph.now ran.entry.matrix.now) ran.entry.run.now ran.entry.collection.now.name (slice_range ran.entry.collection.now.views first (length ran.entry.matrix.now.columns)))) }
    ensures err { OnErr result (GrewByFront (O.written out.old) (O.written out.new) (tables_text U.answer form (shown_graph ran.entry.graph.now ran.entry.matrix.now) ran.entry.run.now ran.entry.collection.now.name (slice_range ran.entry.collection.now.views first (length ran.entry.matrix.now.columns)))) }
    ensures faults { O.faults out.old ≤ O.faults out.new }
    ensures failed { result ≡ Err Trouble.Failed → HasRisen (O.faults out.old) (O.faults out.new) }
{
    let views = views_between(
        ran.collection.views.as_slice(),
        first as usize,
        ran.matrix.views() as usize,
    );
    write_tables::<O, U>(alloc, ran, views, first, form, out)
}
