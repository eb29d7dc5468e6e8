//! One round of a program over all nodes.

ghost use Rattle.std.specs.Prelude.{◌≡◌, ◌≢◌, ◌<◌, ◌^◌, ◌+◌, length, map, EachIndex, MatchBool, get_or};
ghost use Rattle.vertex_lang.specs.Rounds.{nodes_of};
ghost use Rattle.vertex_lang.specs.Phases.{next_with};
ghost use Rattle.vertex_lang.specs.Mail.{no_mail, next_from, TellsChange};
ghost use Rattle.vertex_lang.specs.Settings.{HasSizes};

use crate::mail::Mail;
use crate::setting::{Lists, Setting};
use crate::updater::Updater;
use graph_model::{NodeNo, Val};

impl Setting<'_> {
    /// Takes the values one round on, and tells whether that changed any. It calls the updater once for each node.
    pub(crate) fn advance<U: Updater>(&self, lists: &mut Lists, updater: &mut U) -> bool
        requires sizes { HasSizes self.now.graph.now lists.old.values.items lists.old.sent.items lists.old.mail.items }
        ensures sizes { HasSizes self.now.graph.now lists.new.values.items lists.new.sent.items lists.new.mail.items }
        ensures values { lists.new.values.items ≡ next_with U.answer self.now.program.now self.now.graph.now self.now.starts.now self.now.arcs.now lists.old.values.items }
        ensures changed { TellsChange result lists.new.values.items lists.old.values.items }
        ensures calls { U.calls updater.new ≡ U.calls updater.old + length self.now.graph.now.ids }
    {
        self.deliver(&lists.values, &mut lists.sent, &mut lists.mail);
        self.update_all(&lists.mail, &mut lists.values, updater)
    }

    // Gives each node its next value, from its mail, and tells whether that changed any.
    fn update_all<U: Updater>(&self, mail: &[Mail], values: &mut [Val], updater: &mut U) -> bool
        requires mail_size { length mail.now ≡ length self.now.graph.now.ids }
        requires counts { EachIndex mail.now (λ v. (get_or mail.now v no_mail).count < 2 ^ 32) }
        requires values_size { length values.old ≡ length self.now.graph.now.ids }
        ensures values { values.new ≡ map (next_from U.answer self.now.program.now self.now.graph.now self.now.starts.now mail.now values.old) (nodes_of self.now.graph.now) }
        ensures changed { TellsChange result values.new values.old }
        ensures calls { U.calls updater.new ≡ U.calls updater.old + length self.now.graph.now.ids }
    {
        let mut changed = false;
        for node in 0..self.graph.node_count() {
            let place = node as usize;
            let got = mail[place];
            let old = values[place];
            let id = self.graph.id(NodeNo(node));
            let gathered = got.gathered(self.program.gather);
            let new = updater.update(
                self.program,
                id,
                self.starts[place],
                old,
                gathered,
                got.count,
            );
            values[place] = new;
            changed = changed || differ(new, old);
        }
        changed
    }
}

// Whether two values differ.
fn differ(new: Val, old: Val) -> bool
    ensures { MatchBool result (new ≢ old) (new ≡ old) }
{
    new != old
}
