//! The values of both views, round by round.

ghost use Rattle.std.specs.Prelude.{◌≡◌, ◌<◌, ◌≤◌, true, false, List, length, map, slice_set, All, IfOk, IsTrue};
ghost use Rattle.graph_model.specs.declared.value.Val.{Val};
ghost use Rattle.round_messages.specs.Sides.{AreSentFirstFor, AreSentFor, IsSender, MayKeepFor};
ghost use Rattle.message_forms.specs.Forms.{HasForm};
ghost use Rattle.value_codes.specs.ShortCodes.{widened};
ghost use Rattle.value_codes.specs.Numbers.{IsPut};
ghost use Rattle.change_lists.specs.ChangeLists.{HasChanges};

use change_lists::Change;
use graph_model::{EdgeNo, Graph, NodeNo, Val};
use message_forms::{Form, added_by, form_of, number_of, send_by};
use std::alloc::Global;
use surge_outside::{List, NoMemory};
use value_codes::{Codes, lengthened, short_code};
use vertex_lang::Program;

/// What the message of a node is made of, beside its value.
#[derive(Clone, Copy)]
pub struct Sender<'a> {
    pub program: &'a Program,
    pub graph: &'a Graph,
    /// How many arcs leave each node.
    pub degrees: &'a [u64],
}

/// Gives each node that changes its new value, and its new message where messages are kept. It tells whether they are kept
/// from then on, as they are where each of them has a number: where one doesn't fit in four bytes, all are made anew.
pub fn apply(
    alloc: Global,
    sender: &Sender<'_>,
    alike: bool,
    now: &mut [Val],
    sent: &mut Codes,
    changes: &[Change],
) -> bool
    requires within { All (λ c. c.node.0 < length now.old) changes.now }
    requires sender { IsSender sender.now }
    requires size { length now.old ≡ length sender.now.graph.now.ids }
    requires keeps { MayKeepFor alike sender.now }
    requires sent { AreSentFor alike sender.now now.old sent.old }
    ensures values { (after : List Val) → length after ≡ length now.old → HasChanges (length now.old) now.old after changes.now → now.new ≡ after }
    ensures only { IsTrue result → IsTrue alike }
    ensures sent { AreSentFor result sender.now now.new sent.new }
{
    let kept = apply_all(sender, alike, now, sent, changes);
    if kept || !alike {
        return kept;
    }
    send_again(alloc, sender, now, sent)
}

// Puts the new values in, and keeps what these nodes send, unless a message doesn't fit. Messages that are made from the value alone
// are made in a loop of their own, which asks neither for the form nor for the number of arcs.
fn apply_all(
    sender: &Sender<'_>,
    alike: bool,
    now: &mut [Val],
    sent: &mut Codes,
    changes: &[Change],
) -> bool
    requires within { All (λ c. c.node.0 < length now.old) changes.now }
    requires sender { IsSender sender.now }
    requires size { length now.old ≡ length sender.now.graph.now.ids }
    requires keeps { MayKeepFor alike sender.now }
    requires sent { AreSentFor alike sender.now now.old sent.old }
    ensures values { (after : List Val) → length after ≡ length now.old → HasChanges (length now.old) now.old after changes.now → now.new ≡ after }
    ensures only { IsTrue result → IsTrue alike }
    ensures sent { AreSentFor result sender.now now.new sent.new }
{
    let form = form_of(sender.program);
    if alike {
        if let Some(added) = added_by(form) {
            return sent.follow(added, now, changes);
        }
    }
    apply_by(form, sender, alike, now, sent, changes)
}

// Puts the new values in, and the messages of these nodes, whatever the form of the message.
fn apply_by(
    form: Form,
    sender: &Sender<'_>,
    alike: bool,
    now: &mut [Val],
    sent: &mut Codes,
    changes: &[Change],
) -> bool
    requires form { HasForm sender.now.program.now form }
    requires within { All (λ c. c.node.0 < length now.old) changes.now }
    requires sender { IsSender sender.now }
    requires size { length now.old ≡ length sender.now.graph.now.ids }
    requires keeps { MayKeepFor alike sender.now }
    requires sent { AreSentFor alike sender.now now.old sent.old }
    ensures values { (after : List Val) → length after ≡ length now.old → HasChanges (length now.old) now.old after changes.now → now.new ≡ after }
    ensures only { IsTrue result → IsTrue alike }
    ensures sent { AreSentFor result sender.now now.new sent.new }
{
    let mut kept = alike;
    for change in changes {
        kept = change_one(form, sender, kept, now, sent, *change);
    }
    kept
}

// Gives a node its new value, and its new message where messages are kept. It tells whether they are kept from then on.
fn change_one(
    form: Form,
    sender: &Sender<'_>,
    alike: bool,
    now: &mut [Val],
    sent: &mut Codes,
    change: Change,
) -> bool
    requires form { HasForm sender.now.program.now form }
    requires node { change.node.0 < length now.old }
    requires sender { IsSender sender.now }
    requires size { length now.old ≡ length sender.now.graph.now.ids }
    requires keeps { MayKeepFor alike sender.now }
    requires sent { AreSentFor alike sender.now now.old sent.old }
    ensures value { now.new ≡ slice_set now.old change.node.0 change.value }
    ensures only { IsTrue result → IsTrue alike }
    ensures sent { AreSentFor result sender.now now.new sent.new }
{
    let place = change.node.0 as usize;
    now[place] = change.value;
    if !alike {
        return false;
    }
    let message = send_by(
        form,
        sender.program,
        sender.graph,
        change.node,
        change.value,
        sender.degrees[place],
        EdgeNo(0),
    );
    put(sent, place, message)
}

// Keeps a message for a node, and tells whether it has a number that fits.
fn put(sent: &mut Codes, node: usize, message: Val) -> bool
    requires { node < length sent.old }
    ensures { IsTrue result → IsPut node message sent.old sent.new }
{
    match number_of(message) {
        Some(number) => sent.set(node, number),
        None => false,
    }
}

/// Whether messages are kept, and the message of each node where they are. They are kept where they may be and each of them
/// has a number.
pub fn send_all(
    alloc: Global,
    sender: &Sender<'_>,
    alike: bool,
    values: &[Val],
) -> Result<(bool, Codes), NoMemory>
    requires sender { IsSender sender.now }
    requires size { length values.now ≡ length sender.now.graph.now.ids }
    requires keeps { MayKeepFor alike sender.now }
    ensures only { IfOk result (λ r. IsTrue r.0 → IsTrue alike) }
    ensures sent { IfOk result (λ r. AreSentFor r.0 sender.now values.now r.1) }
{
    if !alike {
        return Ok((false, Codes::new(alloc)));
    }
    match form_of(sender.program) {
        Form::Value => send_all_by(alloc, Form::Value, sender, values),
        Form::Plus(number) => send_all_by(alloc, Form::Plus(number), sender, values),
        form => send_all_by(alloc, form, sender, values),
    }
}

// The messages of all nodes as numbers, given their form, where they may be kept: in four bytes each, if all of them fit.
fn send_all_by(
    alloc: Global,
    form: Form,
    sender: &Sender<'_>,
    values: &[Val],
) -> Result<(bool, Codes), NoMemory>
    requires form { HasForm sender.now.program.now form }
    requires sender { IsSender sender.now }
    requires size { length values.now ≡ length sender.now.graph.now.ids }
    requires keeps { MayKeepFor true sender.now }
    ensures { IfOk result (λ r. AreSentFor r.0 sender.now values.now r.1) }
{
    let short = send_short(alloc, form, sender, values)?;
    if short.len() == sender.graph.node_count() as usize {
        return Ok((true, Codes::short(short)));
    }
    let begun = lengthened(alloc, &short)?;
    let (alike, long) = send_long(form, sender, values, begun)?;
    Ok((alike, Codes::long(long)))
}

// The messages of the first nodes as numbers of four bytes: of all, or up to the first that is none.
fn send_short(
    alloc: Global,
    form: Form,
    sender: &Sender<'_>,
    values: &[Val],
) -> Result<Vec<i32>, NoMemory>
    requires form { HasForm sender.now.program.now form }
    requires sender { IsSender sender.now }
    requires size { length values.now ≡ length sender.now.graph.now.ids }
    requires keeps { MayKeepFor true sender.now }
    ensures size { IfOk result (λ short. length short.items ≤ length sender.now.graph.now.ids) }
    ensures sent { IfOk result (λ short. AreSentFirstFor sender.now values.now (map widened short.items)) }
{
    let count = sender.graph.node_count();
    let mut short = Vec::with_capacity(alloc, count as usize)?;
    for node in 0..count {
        let place = node as usize;
        let message = send_by(
            form,
            sender.program,
            sender.graph,
            NodeNo(node),
            values[place],
            sender.degrees[place],
            EdgeNo(0),
        );
        match short_code(message) {
            Some(number) => short.push(number)?,
            None => return Ok(short),
        }
    }
    Ok(short)
}

// The messages of all nodes as numbers, given those of the first; and whether each is one.
fn send_long(
    form: Form,
    sender: &Sender<'_>,
    values: &[Val],
    begun: Vec<i64>,
) -> Result<(bool, Vec<i64>), NoMemory>
    requires form { HasForm sender.now.program.now form }
    requires sender { IsSender sender.now }
    requires size { length values.now ≡ length sender.now.graph.now.ids }
    requires keeps { MayKeepFor true sender.now }
    requires begun_size { length begun.items ≤ length sender.now.graph.now.ids }
    requires begun { AreSentFirstFor sender.now values.now begun.items }
    ensures { IfOk result (λ r. AreSentFor r.0 sender.now values.now r.1.items) }
{
    let count = sender.graph.node_count();
    let first = begun.len() as u32;
    let mut long = begun;
    for node in first..count {
        let place = node as usize;
        let message = send_by(
            form,
            sender.program,
            sender.graph,
            NodeNo(node),
            values[place],
            sender.degrees[place],
            EdgeNo(0),
        );
        match number_of(message) {
            Some(number) => long.push(number)?,
            None => return Ok((false, long)),
        }
    }
    Ok((true, long))
}

// Makes the messages of all nodes anew, in eight bytes each, and tells whether each has a number. Where memory is wanting, they
// aren't kept any more.
fn send_again(alloc: Global, sender: &Sender<'_>, values: &[Val], sent: &mut Codes) -> bool
    requires sender { IsSender sender.now }
    requires size { length values.now ≡ length sender.now.graph.now.ids }
    requires keeps { MayKeepFor true sender.now }
    ensures { AreSentFor result sender.now values.now sent.new }
{
    let none = Vec::new(alloc);
    match send_long(form_of(sender.program), sender, values, none) {
        Ok((alike, long)) => {
            *sent = Codes::long(long);
            alike
        }
        Err(_) => false,
    }
}
