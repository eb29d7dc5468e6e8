//! Copies of what a plan holds.

ghost use Rattle.std.specs.Prelude.{◌≡◌, IfOk};

use edge_predicates::{Place, Pred};
use gvdl_tree::{Arg, Call};
use std::alloc::Global;
use surge_outside::{Boxed, List, NoMemory, Text};

/// A copy of a text.
pub(crate) fn copied_text(alloc: Global, text: &Text) -> Result<Text, NoMemory>
    ensures { IfOk result (λ copy. copy ≡ text.now) }
{
    Ok(Text::from_string(String::from_str(alloc, text.as_str())?))
}

fn copied_place(alloc: Global, place: &Place) -> Result<Place, NoMemory>
    ensures { IfOk result (λ copy. copy ≡ place.now) }
{
    match place {
        Place::Number(number) => Ok(Place::Number(*number)),
        Place::Str(text) => Ok(Place::Str(copied_text(alloc, text)?)),
        Place::Bool(truth) => Ok(Place::Bool(*truth)),
        Place::SrcId => Ok(Place::SrcId),
        Place::DstId => Ok(Place::DstId),
        Place::Src(column) => Ok(Place::Src(*column)),
        Place::Dst(column) => Ok(Place::Dst(*column)),
        Place::Edge(column) => Ok(Place::Edge(*column)),
    }
}

/// A copy of a predicate.
#[cycle(copying)]
pub(crate) fn copied_pred(alloc: Global, pred: &Pred) -> Result<Pred, NoMemory>
    ensures { IfOk result (λ copy. copy ≡ pred.now) }
{
    match pred {
        Pred::Or(members) => Ok(Pred::Or(copied_preds(alloc, members.as_slice())?)),
        Pred::And(members) => Ok(Pred::And(copied_preds(alloc, members.as_slice())?)),
        Pred::Not(member) => {
            let member = copied_pred(alloc, member.get())?;
            Ok(Pred::Not(Boxed::new(alloc, member)?))
        }
        Pred::Constant(truth) => Ok(Pred::Constant(*truth)),
        Pred::Compare(first, sign, second) => {
            let first = copied_place(alloc, first)?;
            let second = copied_place(alloc, second)?;
            Ok(Pred::Compare(first, *sign, second))
        }
        Pred::Missing(place) => Ok(Pred::Missing(copied_place(alloc, place)?)),
    }
}

/// A copy of some predicates.
#[cycle(copying)]
pub(crate) fn copied_preds(alloc: Global, preds: &[Pred]) -> Result<List<Pred>, NoMemory>
    ensures { IfOk result (λ copies. copies ≡ preds.now) }
{
    let mut copies = List::new(alloc);
    for pred in preds {
        copies.push(copied_pred(alloc, pred)?)?;
    }
    Ok(copies)
}

fn copied_arg(alloc: Global, arg: &Arg) -> Result<Arg, NoMemory>
    ensures { IfOk result (λ copy. copy ≡ arg.now) }
{
    match arg {
        Arg::Number(number) => Ok(Arg::Number(*number)),
        Arg::Prop(property) => Ok(Arg::Prop(copied_text(alloc, property)?)),
    }
}

fn copied_args(alloc: Global, args: &[Arg]) -> Result<List<Arg>, NoMemory>
    ensures { IfOk result (λ copies. copies ≡ args.now) }
{
    let mut copies = List::new(alloc);
    for arg in args {
        copies.push(copied_arg(alloc, arg)?)?;
    }
    Ok(copies)
}

// A copy of a call.
fn copied_call(alloc: Global, call: &Call) -> Result<Call, NoMemory>
    ensures { IfOk result (λ copy. copy ≡ call.now) }
{
    Ok(Call {
        name: copied_text(alloc, &call.name)?,
        args: copied_args(alloc, call.args.as_slice())?,
    })
}

// A copy of a name that need not be there.
fn copied_name(alloc: Global, name: &Option<Text>) -> Result<Option<Text>, NoMemory>
    ensures { IfOk result (λ copy. copy ≡ name.now) }
{
    match name {
        Some(name) => Ok(Some(copied_text(alloc, name)?)),
        None => Ok(None),
    }
}

/// Copies of the call of a run, and of the name that it may be kept under.
pub(crate) fn copied_words(
    alloc: Global,
    call: &Call,
    name: &Option<Text>,
) -> Result<(Call, Option<Text>), NoMemory>
    ensures { IfOk result (λ copies. copies ≡ (call.now, name.now)) }
{
    let call = copied_call(alloc, call)?;
    let name = copied_name(alloc, name)?;
    Ok((call, name))
}
