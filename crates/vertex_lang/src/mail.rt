//! What a node has got in a round.

ghost use Rattle.std.specs.Prelude.{◌≡◌, ◌<◌, ◌^◌, ◌+◌};
ghost use Rattle.vertex_lang.specs.Mail.{no_mail, mail_with, mail_with_many, extreme_with_many, gathered_in, IsBounded};

use crate::arithmetic::{clamp_number, join};
use crate::program::Gather;
use graph_model::Val;

/// What a node has got so far: what the gathered value is made of, however it is gathered.
#[derive(Clone, Copy, Debug, PartialEq, Eq)]
pub(crate) struct Mail {
    /// The least or the greatest message, where the one or the other is gathered.
    pub(crate) extreme: Val,
    /// The exact sum of the messages.
    pub(crate) total: i128,
    /// How many messages there are.
    pub(crate) count: u64,
}

impl Mail {
    /// Of no message.
    pub(crate) fn new() -> Mail
        ensures mail { result ≡ no_mail }
        ensures bounded { IsBounded result }
    {
        Mail {
            extreme: Val::Nil,
            total: 0,
            count: 0,
        }
    }

    /// With one message more. None is not sent.
    pub(crate) fn with(self, kind: Gather, message: Val) -> Mail
        requires room { self.count < 2 ^ 32 }
        requires bounded { IsBounded self }
        ensures mail { result ≡ mail_with kind self message }
        ensures bounded { IsBounded result }
    {
        match message {
            Val::Nil => self,
            Val::Num(number) => Mail {
                extreme: join(kind, self.extreme, message),
                total: self.total + i128::from(number),
                count: self.count + 1,
            },
        }
    }

    /// With a message more, as often as the number says. None is not sent.
    pub(crate) fn with_many(self, kind: Gather, message: Val, times: u64) -> Mail
        requires room { self.count + times < 2 ^ 32 }
        requires bounded { IsBounded self }
        ensures mail { result ≡ mail_with_many kind self message times }
        ensures bounded { IsBounded result }
    {
        match message {
            Val::Nil => self,
            Val::Num(number) => Mail {
                extreme: join_many(kind, self.extreme, message, times),
                total: self.total + i128::from(number) * i128::from(times),
                count: self.count + times,
            },
        }
    }

    /// What is gathered of it.
    pub(crate) fn gathered(self, kind: Gather) -> Val
        requires { self.count < 2 ^ 32 }
        ensures { result ≡ gathered_in kind self }
    {
        match kind {
            Gather::Min => self.extreme,
            Gather::Max => self.extreme,
            Gather::Sum => Val::Num(clamp_number(self.total)),
            Gather::Count => Val::Num(self.count as i64),
        }
    }
}

// The least or the greatest message with a message more that is there so often.
fn join_many(kind: Gather, extreme: Val, message: Val, times: u64) -> Val
    ensures { result ≡ extreme_with_many kind extreme message times }
{
    if times > 0 {
        join(kind, extreme, message)
    } else {
        extreme
    }
}
