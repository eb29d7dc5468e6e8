//! What stands among the words of a node.

ghost use Rattle.std.specs.Prelude.{◌≡◌, ◌+◌, ◌≤◌, [], ◌∷◌, ◌++◌, min, fold, sum_by, IfOk, OnOk};
ghost use Rattle.flow_core.specs.Expanded.{expanded};
ghost use Rattle.vertex_items.specs.Given.{start_in, own_in, message_in};
ghost use Rattle.vertex_update.specs.Reading.{with_one};
ghost use Rattle.vertex_update.specs.declared.single.Single.TheVariants.{Nothing};

use crate::single::Single;
use graph_model::Val;
use std::alloc::Global;
use surge_outside::NoMemory;
use vertex_items::NodeItem;
use weighted::Weight;

/// One more than the greatest number of messages.
pub(crate) const TOO_MANY: u64 = 4_294_967_296;

/// The start and the value of a node, its messages with their weights, and the sum of these, or [`TOO_MANY`] where it
/// is not below that.
#[derive(Drop)]
pub(crate) struct Found {
    pub(crate) start: Single,
    pub(crate) own: Single,
    pub(crate) messages: Vec<(Val, u64)>,
    pub(crate) count: u64,
}

/// The sum, or [`TOO_MANY`] where it is not below that.
fn capped_sum(count: u64, weight: u64) -> u64
    requires { count ≤ 4_294_967_296 }
    ensures { result ≡ min (count + weight) 4_294_967_296 }
{
    if weight >= TOO_MANY {
        return TOO_MANY;
    }
    (count + weight).min(TOO_MANY)
}

impl Found {
    /// Nothing.
    fn new(alloc: Global) -> Found
        ensures start { result.start ≡ Nothing }
        ensures own { result.own ≡ Nothing }
        ensures messages { result.messages.items ≡ [] }
        ensures count { result.count ≡ 0 }
    {
        Found {
            start: Single::Nothing,
            own: Single::Nothing,
            messages: Vec::new(alloc),
            count: 0,
        }
    }

    /// With one item more, of this weight. Errors: out of memory; it is then of no use any more.
    fn take_in(&mut self, item: NodeItem, weight: Weight) -> Result<(), NoMemory>
        requires { self.old.count ≤ 4_294_967_296 }
        ensures start { OnOk result (self.new.start ≡ fold with_one self.old.start (expanded start_in ((item, weight) ∷ []))) }
        ensures own { OnOk result (self.new.own ≡ fold with_one self.old.own (expanded own_in ((item, weight) ∷ []))) }
        ensures messages { OnOk result (self.new.messages.items ≡ self.old.messages.items ++ expanded message_in ((item, weight) ∷ [])) }
        ensures count { OnOk result (self.new.count ≡ min (self.old.count + sum_by (λ m. m.1) (expanded message_in ((item, weight) ∷ []))) 4_294_967_296) }
    {
        match item {
            NodeItem::Start(value) => {
                self.start = self.start.with(value, weight.0);
            }
            NodeItem::Own(value) => {
                self.own = self.own.with(value, weight.0);
            }
            NodeItem::Message(Val::Nil) => {}
            NodeItem::Message(Val::Num(number)) => {
                self.messages.push((Val::Num(number), weight.0))?;
                self.count = capped_sum(self.count, weight.0);
            }
        }
        Ok(())
    }
}

/// What stands among these words. The one error is want of memory.
pub(crate) fn found_in(alloc: Global, words: &[(NodeItem, Weight)]) -> Result<Found, NoMemory>
    ensures start { IfOk result (λ found. found.start ≡ fold with_one Nothing (expanded start_in words.now)) }
    ensures own { IfOk result (λ found. found.own ≡ fold with_one Nothing (expanded own_in words.now)) }
    ensures messages { IfOk result (λ found. found.messages.items ≡ expanded message_in words.now) }
    ensures count { IfOk result (λ found. found.count ≡ min (sum_by (λ m. m.1) (expanded message_in words.now)) 4_294_967_296) }
{
    let mut found = Found::new(alloc);
    for (item, weight) in words {
        found.take_in(*item, *weight)?;
    }
    Ok(found)
}
