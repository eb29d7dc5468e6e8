//! The evaluation of keys.

ghost use Rattle.std.specs.Prelude.{◌≡◌, ℕ, ◌+◌, ◌≤◌, ◌++◌, ◌∷◌, ◌&&◌, not, List, [], Some, length, map, filter, IfOk, OnOk};
ghost use Rattle.std.specs.List.{Contains};
ghost use Rattle.std.specs.Ordering.{is_eq, is_ne};
ghost use Rattle.weighted.specs.Alike.{negated};
ghost use Rattle.weighted.specs.Batches.{IsBatch};
ghost use Rattle.weighted.specs.Normal.{normal};
ghost use Rattle.weighted.specs.WordLaws.{mapped};
ghost use Rattle.reduce_theory.specs.ByKey.{over};
ghost use Rattle.diff_reduce.specs.Stands.{IsKept};
ghost use Rattle.diff_reduce.specs.Changes.{correction};
ghost use Rattle.diff_reduce.specs.Later.{covered, later_of, AreLater};

use crate::count::Count;
use crate::key_logic::KeyLogic;
use crate::pairs::Pairs;
use crate::reading::{Reading, normalize};
use crate::sets::push_if;
use lattice_time::Time;
use std::alloc::Global;
use surge_outside::{Counted, List, NoMemory, Record};
use trace_store::Trace;
use weighted::Weight;

/// What is made of keys and the keys that are due later, as far as some keys were evaluated, and what each evaluation
/// uses anew.
#[derive(Drop)]
struct Work<K: Record, V: Record, O: Record, T: Time> {
    alloc: Global,
    made: Vec<((K, O), Weight)>,
    later: Vec<(T, K)>,
    inputs: Reading<K, V, T>,
    outputs: Reading<K, O, T>,
    given: List<(O, Weight)>,
    marks: List<T>,
}

impl<K: Record, V: Record, O: Record, T: Time> Work<K, V, O, T> {
    /// No key evaluated yet. It takes no memory.
    fn new(alloc: Global) -> Work<K, V, O, T>
        ensures made { result.made.items ≡ [] }
        ensures later { result.later.items ≡ [] }
    {
        Work {
            alloc,
            made: Vec::new(alloc),
            later: Vec::new(alloc),
            inputs: Reading::new(alloc),
            outputs: Reading::new(alloc),
            given: List::new(alloc),
            marks: List::new(alloc),
        }
    }

    /// What was made, and what is due later.
    fn into_parts(self) -> (Vec<((K, O), Weight)>, Vec<(T, K)>)
        ensures made { result.0.items ≡ self.made.items }
        ensures later { result.1.items ≡ self.later.items }
    {
        (self.made, self.later)
    }
}

/// Adds what is given for a key.
fn push_given<K: Record, O: Record>(
    made: &mut Vec<((K, O), Weight)>,
    key: K,
    given: &[(O, Weight)],
) -> Result<(), NoMemory>
    ensures { OnOk result (made.new.items ≡ made.old.items ++ mapped (λ o. (key, o)) given.now) }
{
    for (output, weight) in given {
        made.push(((key, *output), *weight))?;
    }
    Ok(())
}

/// Adds what takes away what was made before.
fn push_taken<O: Record>(
    given: &mut List<(O, Weight)>,
    before: &[(O, Weight)],
) -> Result<(), NoMemory>
    ensures { OnOk result (given.new ≡ given.old ++ negated before.now) }
{
    for (output, weight) in before {
        given.push((*output, weight.negate()))?;
    }
    Ok(())
}

/// Whether the evaluation at the last of some times covers that of a mark at `t`.
fn is_covered<T: Time>(t: &T, last: Option<T>, mark: &T) -> bool
    ensures { result ≡ covered T.leq T.lub t.now last mark.now }
{
    match last {
        Some(a) => a.leq(t) && t.leq(&a.lub(mark)),
        None => false,
    }
}

/// Whether the least upper bound of a time and a mark is to be named: it is another time, and not covered.
fn is_named<T: Time>(t: &T, bound: &T, last: Option<T>, mark: &T) -> bool
    ensures { result ≡ is_ne (T.cmp bound.now t.now) && not (covered T.leq T.lub t.now last mark.now) }
{
    bound.cmp(t).is_ne() && !is_covered(t, last, mark)
}

/// Adds the least upper bounds of a time and of marks, but the time itself and those that the last evaluation covers.
fn push_later<K: Record, T: Time>(
    later: &mut Vec<(T, K)>,
    key: K,
    t: T,
    last: Option<T>,
    marks: &[T],
) -> Result<(), NoMemory>
    ensures { OnOk result (later.new.items ≡ later.old.items ++ later_of T.leq T.lub T.cmp t last key marks.now) }
{
    for mark in marks {
        let bound = t.lub(mark);
        push_if(later, (bound, key), is_named(&t, &bound, last, mark))?;
    }
    Ok(())
}

/// Adds the times of entries.
fn push_times<K: Record, V: Record, T: Time>(
    times: &mut List<T>,
    entries: &[(((K, V), T), Weight)],
) -> Result<(), NoMemory>
    ensures { OnOk result (times.new ≡ times.old ++ map (λ e. e.0.1) entries.now) }
{
    for entry in entries {
        times.push(entry.0.1)?;
    }
    Ok(())
}

/// The last of some times.
fn last_of<T: Time>(times: &[T]) -> Option<T>
    ensures { (a : T) → result ≡ Some a → Contains times.now a }
{
    if times.is_empty() {
        return None;
    }
    Some(times[times.len() - 1])
}

/// Replaces what is in `marks` by the times at which a key was evaluated and those of its entries, and answers the last
/// of the former.
fn read_marks<K: Record, V: Record, T: Time>(
    points: &Pairs<K, T>,
    key: K,
    entries: &[(((K, V), T), Weight)],
    marks: &mut List<T>,
) -> Result<Option<T>, NoMemory>
    ensures marks { OnOk result (marks.new ≡ map (λ p. p.1) (filter (λ p. is_eq (K.cmp p.0 key)) points.now) ++ map (λ e. e.0.1) entries.now) }
    ensures last { IfOk result (λ last. (a : T) → last ≡ Some a → Contains (map (λ p. p.1) (filter (λ p. is_eq (K.cmp p.0 key)) points.now)) a) }
{
    marks.clear();
    points.push_seconds(&key, marks)?;
    let last = last_of(marks.as_slice());
    push_times(marks, entries)?;
    Ok(last)
}

impl<K: Record, V: Record, O: Record, T: Time> Work<K, V, O, T> {
    /// Adds the correction of a key at `t`, and the times at which the key is due once it is evaluated. It reads the
    /// key's entries once, and calls the logic once.
    fn evaluate<U: Counted, G>(
        &mut self,
        logic: &G,
        input: &Trace<K, V, T>,
        output: &Trace<K, O, T>,
        points: &Pairs<K, T>,
        key: K,
        t: T,
        updater: &mut U,
    ) -> Result<(), NoMemory>
    where
        G: KeyLogic<U, Key = K, Value = V, Output = O>,
        ensures made { OnOk result (self.new.made.items ≡ self.old.made.items ++ mapped (λ o. (key, o)) (normal O.cmp (correction T.leq K.cmp V.cmp O.cmp (G.gives logic.now) t input.now.items output.now.items key))) }
        ensures later { OnOk result ((ks : List K) → AreLater T.leq T.lub (IsKept T.cmp K.cmp V.cmp input.now.items points.now) points.now t ks self.old.later.items → AreLater T.leq T.lub (IsKept T.cmp K.cmp V.cmp input.now.items points.now) points.now t (ks ++ key ∷ []) self.new.later.items) }
        ensures calls { U.calls updater.old ≤ U.calls updater.new }
        ensures cost { U.calls updater.new ≤ U.calls updater.old + 1 }
    {
        self.inputs.read(self.alloc, input, key, t)?;
        self.outputs.read(self.alloc, output, key, t)?;
        self.given.clear();
        logic.eval(key, self.inputs.values.as_slice(), &mut self.given, updater)?;
        push_taken(&mut self.given, self.outputs.values.as_slice())?;
        normalize(self.alloc, &mut self.given)?;
        push_given(&mut self.made, key, self.given.as_slice())?;
        let last = read_marks(points, key, self.inputs.entries.as_slice(), &mut self.marks)?;
        push_later(&mut self.later, key, t, last, self.marks.as_slice())
    }
}

/// Evaluates keys at a time, each once: what is made of them, and the keys that are due later. It counts each
/// evaluation.
pub(crate) fn evaluate<K: Record, V: Record, O: Record, T: Time, U: Counted, G>(
    alloc: Global,
    logic: &G,
    input: &Trace<K, V, T>,
    output: &Trace<K, O, T>,
    points: &Pairs<K, T>,
    keys: &[K],
    t: T,
    count: &mut Count,
    updater: &mut U,
) -> Result<(Vec<((K, O), Weight)>, Vec<(T, K)>), NoMemory>
where
    G: KeyLogic<U, Key = K, Value = V, Output = O>,
    ensures made { IfOk result (λ found. found.0.items ≡ over (λ k. normal O.cmp (correction T.leq K.cmp V.cmp O.cmp (G.gives logic.now) t input.now.items output.now.items k)) keys.now) }
    ensures later { IfOk result (λ found. AreLater T.leq T.lub (IsKept T.cmp K.cmp V.cmp input.now.items points.now) points.now t keys.now found.1.items) }
    ensures count { OnOk result (count.new ≡ count.old + length keys.now) }
    ensures counted { count.old ≤ count.new }
    ensures calls { U.calls updater.old ≤ U.calls updater.new }
    ensures cost { U.calls updater.new + count.old ≤ U.calls updater.old + count.new }
{
    let mut work = Work::new(alloc);
    for key in keys {
        count.tick()?;
        work.evaluate(logic, input, output, points, *key, t, updater)?;
    }
    Ok(work.into_parts())
}
