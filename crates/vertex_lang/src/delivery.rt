//! Putting into the mail what the arcs bring in a round.

ghost use Rattle.std.specs.Prelude.{◌≡◌, ◌<◌, ◌^◌, length, get_or, slice_set, EachIndex};
ghost use Rattle.vertex_lang.specs.Expressions.{sent_by};
ghost use Rattle.vertex_lang.specs.Arcs.{IsArc};
ghost use Rattle.vertex_lang.specs.Rounds.{value_at, carried};
ghost use Rattle.vertex_lang.specs.Ignoring.{IgnoresEdge, IsSent};
ghost use Rattle.vertex_lang.specs.Mail.{no_mail, mail_with, HasMail, AreBounded};

use crate::arc::Arc;
use crate::mail::Mail;
use crate::parts::{send, send_on_all};
use crate::setting::Setting;
use graph_model::{NodeNo, Val};

impl Setting<'_> {
    /// Puts into the mail what the arcs bring under these values, in one pass over the arcs. Where the message is the
    /// same along all arcs that leave a node, it is computed once for each node.
    pub(crate) fn deliver(&self, values: &[Val], sent: &mut [Val], mail: &mut [Mail])
        requires values_size { length values.now ≡ length self.now.graph.now.ids }
        requires sent_size { length sent.old ≡ length self.now.graph.now.ids }
        requires mail_size { length mail.old ≡ length self.now.graph.now.ids }
        ensures { HasMail self.now.program.now.gather (carried self.now.program.now self.now.graph.now self.now.arcs.now values.now) self.now.arcs.now mail.new }
    {
        if self.alike {
            self.send_all(values, sent);
            self.deliver_sent(values, sent, mail);
        } else {
            self.deliver_each(values, mail);
        }
    }

    // Computes the message of each node.
    fn send_all(&self, values: &[Val], sent: &mut [Val])
        requires ignores { IgnoresEdge self.now.program.now.send }
        requires values_size { length values.now ≡ length self.now.graph.now.ids }
        requires sent_size { length sent.old ≡ length self.now.graph.now.ids }
        ensures { IsSent self.now.program.now self.now.graph.now self.now.arcs.now values.now sent.new }
    {
        for node in 0..self.graph.node_count() {
            let place = node as usize;
            sent[place] = send_on_all(
                self.program,
                self.graph,
                NodeNo(node),
                values[place],
                self.degrees[place],
            );
        }
    }

    // Puts into the mail the messages that were computed.
    fn deliver_sent(&self, values: &[Val], sent: &[Val], mail: &mut [Mail])
        requires sent { IsSent self.now.program.now self.now.graph.now self.now.arcs.now values.now sent.now }
        requires sent_size { length sent.now ≡ length self.now.graph.now.ids }
        requires mail_size { length mail.old ≡ length self.now.graph.now.ids }
        ensures { HasMail self.now.program.now.gather (carried self.now.program.now self.now.graph.now self.now.arcs.now values.now) self.now.arcs.now mail.new }
    {
        clear(mail);
        for arc in self.arcs {
            let head = arc.head.0 as usize;
            mail[head] = mail[head].with(self.program.gather, sent[arc.tail.0 as usize]);
        }
    }

    // Puts into the mail what the arcs bring, arc by arc.
    fn deliver_each(&self, values: &[Val], mail: &mut [Mail])
        requires values_size { length values.now ≡ length self.now.graph.now.ids }
        requires mail_size { length mail.old ≡ length self.now.graph.now.ids }
        ensures { HasMail self.now.program.now.gather (carried self.now.program.now self.now.graph.now self.now.arcs.now values.now) self.now.arcs.now mail.new }
    {
        clear(mail);
        for arc in self.arcs {
            self.deliver_one(*arc, values, mail);
        }
    }

    // Puts into the mail what one arc brings.
    fn deliver_one(&self, arc: Arc, values: &[Val], mail: &mut [Mail])
        requires arc { IsArc self.now.graph.now arc }
        requires degree { get_or self.now.degrees.items arc.tail.0 0 < 2 ^ 32 }
        requires values { length values.now ≡ length self.now.graph.now.ids }
        requires mail { length mail.old ≡ length self.now.graph.now.ids }
        requires room { (get_or mail.old arc.head.0 no_mail).count < 2 ^ 32 }
        requires bounded { AreBounded mail.old }
        ensures bounded { AreBounded mail.new }
        ensures mail { mail.new ≡ slice_set mail.old arc.head.0 (mail_with self.now.program.now.gather (get_or mail.old arc.head.0 no_mail) (sent_by self.now.program.now self.now.graph.now arc.tail.0 (value_at values.now arc.tail.0) (get_or self.now.degrees.items arc.tail.0 0) arc.edge.0)) }
    {
        let tail = arc.tail.0 as usize;
        let head = arc.head.0 as usize;
        let message = send(
            self.program,
            self.graph,
            arc.tail,
            values[tail],
            self.degrees[tail],
            arc.edge,
        );
        mail[head] = mail[head].with(self.program.gather, message);
    }
}

// Empties the mail.
fn clear(mail: &mut [Mail])
    ensures mail { EachIndex mail.new (λ v. get_or mail.new v no_mail ≡ no_mail) }
    ensures bounded { AreBounded mail.new }
{
    for place in mail.iter_mut() {
        *place = Mail::new();
    }
}
