//! What a node gets in a round, as far as one value is made of it.

ghost use Rattle.std.specs.Prelude.{◌≡◌, ◌≢◌, ◌<◌, ◌^◌, IsTrue};
ghost use Rattle.value_codes.specs.Tallies.{no_tally, tally_with, gathered_in, kept_of, IsBounded};

use graph_model::Val;
use vertex_lang::Gather;
use vertex_lang::arithmetic::{clamp_number, join};

/// What messages come to, however they are gathered.
#[derive(Clone, Copy)]
pub struct Tally {
    /// The least or the greatest message, where the one or the other is gathered.
    pub extreme: Val,
    /// The exact sum of the messages.
    pub total: i128,
    /// How many messages there are.
    pub count: u64,
}

/// What is kept of the messages that a node got: enough to tell most of them from others.
#[derive(Clone, Copy, Debug)]
pub struct Kept {
    /// Their sum, brought into the range of values.
    pub total: i64,
    /// How many there are.
    pub count: u64,
}

impl Kept {
    /// Of no message.
    pub fn new() -> Kept
        ensures { result ≡ kept_of no_tally }
    {
        Kept { total: 0, count: 0 }
    }

    /// Whether it tells the messages that it is of from those that another is of.
    pub fn differs(self, other: Kept) -> bool
        ensures { IsTrue result → self ≢ other }
    {
        self.total != other.total || self.count != other.count
    }
}

impl Tally {
    /// What is kept of it.
    pub fn kept(self) -> Kept
        ensures { result ≡ kept_of self }
    {
        Kept {
            total: clamp_number(self.total),
            count: self.count,
        }
    }

    /// Of no message.
    pub fn new() -> Tally
        ensures tally { result ≡ no_tally }
        ensures bounded { IsBounded result }
    {
        Tally {
            extreme: Val::Nil,
            total: 0,
            count: 0,
        }
    }

    /// With one message more. None is not sent.
    pub fn with(self, kind: Gather, message: Val) -> Tally
        requires room { self.count < 2 ^ 32 }
        requires bounded { IsBounded self }
        ensures tally { result ≡ tally_with kind self message }
        ensures bounded { IsBounded result }
    {
        match message {
            Val::Nil => self,
            Val::Num(number) => Tally {
                extreme: join(kind, self.extreme, message),
                total: self.total + i128::from(number),
                count: self.count + 1,
            },
        }
    }

    /// What is gathered of it.
    pub fn gathered(self, kind: Gather) -> Val
        requires { self.count < 2 ^ 32 }
        ensures { result ≡ gathered_in kind self }
    {
        match kind {
            Gather::Min => self.extreme,
            Gather::Max => self.extreme,
            Gather::Sum => Val::Num(clamp_number(self.total)),
            Gather::Count => Val::Num(self.count as i64),
        }
    }
}
