//! What is kept of the rounds of a view.

ghost use Rattle.std.specs.Prelude.{◌≡◌, ◌≢◌, ◌<◌, ◌≤◌, ◌+◌, ◌-◌, ◌++◌, ◌∷◌, [], ℕ, true, false, length, get_or, option_map, IfOk, OnOk, IsTrue, IsFalse};
ghost use Rattle.std.specs.Rc.{rc_value};
ghost use Rattle.round_kernel.specs.Changes.{made_changes, made_marks, passed_changes, shared_or};

use crate::made::Made;
use change_lists::{ChainedLists, Change, History};
use std::alloc::Global;
use std::mem;
use std::rc::Rc;
use surge_outside::{List, NoMemory};

// How many items a short list has at most.
const MOST_SHORT: usize = 1_000;

/// What is kept of the rounds of a view. Where another view may come behind it, that is its history. Else nobody will read one, and
/// the changes of the last round alone are kept, which the next round needs.
#[derive(Drop)]
pub(crate) struct Log {
    /// Whether a history is kept.
    pub(crate) keeps: bool,
    /// The history, where one is kept, and else an empty one.
    pub(crate) history: History,
    /// Where none is kept, what changed from the last round: the list of the view before, where that has the very changes, and else
    /// the own one.
    pub(crate) same: Option<Rc<List<Change>>>,
    pub(crate) own: List<Change>,
    /// The last round with other values than the one before it; 0 where there is none.
    pub(crate) last: u32,
}

impl Log {
    /// Of a view that went through no round yet: with room for a history like that of the view before, where one is kept, and else for
    /// a change of each node, of so many. The error is want of memory.
    pub(crate) fn new(
        alloc: Global,
        keeps: bool,
        beside: &History,
        count: u32,
    ) -> Result<Log, NoMemory>
        ensures keeps { IfOk result (λ log. log.keeps ≡ keeps) }
        ensures changes { IfOk result (λ log. log.history.changes ≡ []) }
        ensures marks { IfOk result (λ log. log.history.marks ≡ []) }
        ensures last { IfOk result (λ log. log.last ≡ 0) }
    {
        if keeps {
            let history = History::beside(alloc, beside)?;
            return Ok(Log::over(keeps, history, List::new(alloc)));
        }
        let own = Vec::with_capacity(alloc, count as usize)?;
        Ok(Log::over(keeps, History::new(alloc), List::from_vec(own)))
    }

    // With this history, and this list of changes.
    fn over(keeps: bool, history: History, own: List<Change>) -> Log
        ensures keeps { result.keeps ≡ keeps }
        ensures history { result.history ≡ history }
        ensures last { result.last ≡ 0 }
    {
        Log {
            keeps,
            history,
            same: None,
            own,
            last: 0,
        }
    }

    /// What changed from the round before this one. Nothing is before round 0.
    pub(crate) fn before(&self, round: u32) -> &[Change]
        ensures kept { self.now.keeps ≡ true → 0 < round → result.now ≡ get_or self.now.history.changes (round - 1) [] }
        ensures passed { self.now.keeps ≡ false → result.now ≡ passed_changes self.now }
    {
        if self.keeps {
            return self.history.changes_before(round);
        }
        match &self.same {
            Some(same) => same.as_slice(),
            None => self.own.as_slice(),
        }
    }

    /// Adds what a round gave, of a graph with so many nodes. The error is want of memory.
    pub(crate) fn add_round(
        &mut self,
        alloc: Global,
        round: u32,
        made: &mut Made,
        count: u32,
    ) -> Result<(), NoMemory>
        requires { round < 1_000_000 }
        ensures keeps { self.new.keeps ≡ self.old.keeps }
        ensures changes { OnOk result (self.old.keeps ≡ true → self.new.history.changes ≡ self.old.history.changes ++ made_changes made.old ∷ []) }
        ensures first { OnOk result (self.old.keeps ≡ true → round ≡ 0 → self.new.history.marks ≡ self.old.history.marks) }
        ensures later { OnOk result (self.old.keeps ≡ true → 0 < round → self.new.history.marks ≡ self.old.history.marks ++ made_marks made.old ∷ []) }
        ensures passed { OnOk result (self.old.keeps ≡ false → passed_changes self.new ≡ made_changes made.old) }
        ensures still { made_changes made.old ≡ [] → self.new.last ≡ self.old.last }
        ensures moved { made_changes made.old ≢ [] → self.new.last ≡ round + 1 }
        ensures few { made.new.few ≡ made.old.few }
        ensures stirred { made.new.stirred ≡ made.old.stirred }
    {
        self.last = last_change(self.last, round, made.changed());
        if self.keeps {
            return add_to_history(alloc, &mut self.history, round, made, count);
        }
        self.same = made.same_changes.take();
        let spare = mem::replace(&mut self.own, List::new(alloc));
        self.own = mem::replace(&mut made.changes, spare);
        Ok(())
    }
}

// The last round with other values than the one before it, given that of the rounds up to this one, and what changes from this one.
fn last_change(last: u32, round: u32, changed: &[Change]) -> u32
    requires { round < 1_000_000 }
    ensures still { changed.now ≡ [] → result ≡ last }
    ensures moved { changed.now ≢ [] → result ≡ round + 1 }
{
    if changed.is_empty() {
        return last;
    }
    round + 1
}

// Adds what a round gave to a history. The marks of round 0 are not kept.
fn add_to_history(
    alloc: Global,
    history: &mut History,
    round: u32,
    made: &mut Made,
    count: u32,
) -> Result<(), NoMemory>
    ensures changes { OnOk result (history.new.changes ≡ history.old.changes ++ made_changes made.old ∷ []) }
    ensures first { OnOk result (round ≡ 0 → history.new.marks ≡ history.old.marks) }
    ensures later { OnOk result (0 < round → history.new.marks ≡ history.old.marks ++ made_marks made.old ∷ []) }
    ensures few { made.new.few ≡ made.old.few }
    ensures stirred { made.new.stirred ≡ made.old.stirred }
{
    let same = made.same_changes.take();
    add_list(alloc, &mut history.changes, same, &mut made.changes, count)?;
    if round == 0 {
        return Ok(());
    }
    let same = made.same_marks.take();
    add_list(alloc, &mut history.marks, same, &mut made.marks, count)
}

// Adds a list of a round. One that is shared with the view before takes no memory. A long one, which uses more than half of the room
// that it was given, is moved in, and another one with as much room is put in its place. Another one is copied: where it isn't short,
// into memory of its own, so that the view behind may share it, and else to the other short ones.
fn add_list<T: Copy + Drop>(
    alloc: Global,
    lists: &mut ChainedLists<T>,
    same: Option<Rc<List<T>>>,
    list: &mut List<T>,
    count: u32,
) -> Result<(), NoMemory>
    ensures { OnOk result (lists.new ≡ lists.old ++ shared_or (option_map rc_value same) list.old ∷ []) }
{
    if let Some(same) = same {
        return lists.push_shared(same);
    }
    if list.len() <= MOST_SHORT {
        return lists.push(list.as_slice());
    }
    if list.len() <= count as usize / 2 {
        return lists.push_copied(list.as_slice());
    }
    let none = List::from_vec(Vec::with_capacity(alloc, count as usize)?);
    lists.push_owned(mem::replace(list, none))
}

/// Takes away rounds at the end in which nothing changes.
pub(crate) fn trim(changes: &mut ChainedLists<Change>)
    ensures places { (k : ℕ) → get_or changes.new k [] ≡ get_or changes.old k [] }
    ensures few { length changes.new ≤ length changes.old }
    ensures last { 0 < length changes.new → get_or changes.new (length changes.new - 1) [] ≢ [] }
{
    let mut count = changes.len();
    while is_still(changes, count) {
        count -= 1;
    }
    changes.truncate(count);
}

// Whether nothing changes in the last of so many rounds.
fn is_still(changes: &ChainedLists<Change>, count: usize) -> bool
    ensures some { IsTrue result → 0 < count }
    ensures still { IsTrue result → get_or changes.now (count - 1) [] ≡ [] }
    ensures moves { IsFalse result → 0 < count → get_or changes.now (count - 1) [] ≢ [] }
{
    count > 0 && changes.at(count - 1).is_empty()
}
