//! The run of the reduce inside.

ghost use Rattle.std.specs.Prelude.{◌≡◌, ℕ, List};
ghost use Rattle.weighted.specs.Alike.{Alike};
ghost use Rattle.loop_theory.specs.Loops.{pair_leq, pair_lub};
ghost use Rattle.flow_core.specs.Runs.{Run};
ghost use Rattle.inner_theory.specs.Inside.{BodyInside, LoopInside};

use diff_iterate::Iterate;
use diff_reduce::{KeyLogic, Reduce};
use flow_core::{Chain, NoCalls, Operator, Quiet};
use lattice_time::{Pair, Round, Time};
use loop_theory::LoopInput;
use surge_outside::{Counted, Record};

/// Does nothing, and tells contracts of a body by the functions of its parts, which a step and a seal leave as they are:
/// its function is the reduce's of the quiet part's; and the run of the reduce takes its steps with the whole, it was
/// fed what the part makes of what the whole was fed, each of its steps was charged what the whole's was, since the seal
/// the keys that are evaluated at it, and these are all that is charged. It takes no memory.
pub fn body_inside<
    T: Time,
    U: Counted,
    G: KeyLogic<U>,
    I: Operator<T, NoCalls, Output = (G::Key, G::Value)>,
>(body: &Chain<Quiet<I>, Reduce<G, T, U>>)
    ensures apply { let it = ⟦<Chain<Quiet<I>, Reduce<G, T, U>> as Operator<T, U>>⟧ in (items : List (I.Input × ℕ) → List ((G.Key × G.Value) × ℕ)) (reduce : List ((G.Key × G.Value) × ℕ) → List ((G.Key × G.Output) × ℕ)) → (items, reduce) ≡ it.kept body.now → (λ held. reduce (items held)) ≡ it.apply body.now }
    ensures inside { let it = ⟦<Chain<Quiet<I>, Reduce<G, T, U>> as Operator<T, U>>⟧ in (items : List (I.Input × ℕ) → List ((G.Key × G.Value) × ℕ)) (reduce : List ((G.Key × G.Value) × ℕ) → List ((G.Key × G.Output) × ℕ)) → (items, reduce) ≡ it.kept body.now → (run : Run T I.Input (G.Key × G.Output)) → it.stands body.now run → BodyInside T.leq T.lub T.cmp G.Key.cmp G.Value.cmp items (it.seal body.now) (it.due body.now) (it.charge body.now) run }
{
    body.second().evaluations();
}

/// Does nothing, and tells contracts of a loop in hand, and of its body beside it, by the functions of its parts, which a
/// step and a seal leave as they are, the run of the reduce at the end of the body, behind a quiet part, where the body
/// stands for a run of such a reduce: it takes a step a round of each step of the whole; in each round it was fed what
/// the body's part makes of what so many applications give; each step of the whole was charged what its rounds were, and
/// each of these since the seal the keys that are evaluated at it; and these are all that is charged. It takes no
/// memory.
pub fn loop_inside<
    T: Time,
    U: Counted,
    F: Record,
    K: Record,
    V: Record,
    O: Record,
    P: Operator<T, NoCalls, Output = LoopInput<F, (K, O)>>,
    B: Operator<Pair<T, Round>, U, Input = LoopInput<F, (K, O)>, Output = (K, O)>,
>(flow: &Chain<Quiet<P>, Iterate<B, T, U>>, body: &B)
where
    LoopInput<F, (K, O)>: Record + Ord + Eq + PartialOrd + PartialEq,
    requires { body.now ≡ flow.now.second.body }
    ensures kept { let it = ⟦<Chain<Quiet<P>, Iterate<B, T, U>> as Operator<T, U>>⟧ in (prep : List (P.Input × ℕ) → List (LoopInput F (K × O) × ℕ)) (kept : B.Kept) (rounds : ℕ) → (prep, (kept, rounds)) ≡ it.kept flow.now → kept ≡ B.kept body.now }
    ensures inside { let it = ⟦<Chain<Quiet<P>, Iterate<B, T, U>> as Operator<T, U>>⟧ in (prep : List (P.Input × ℕ) → List (LoopInput F (K × O) × ℕ)) (kept : B.Kept) (rounds : ℕ) → (prep, (kept, rounds)) ≡ it.kept flow.now → (items : List (LoopInput F (K × O) × ℕ) → List ((K × V) × ℕ)) → ((xs ys : List (LoopInput F (K × O) × ℕ)) → Alike xs ys → Alike (items xs) (items ys)) → (round : List (LoopInput F (K × O) × ℕ) → List ((K × O) × ℕ)) → round ≡ B.apply body.now → ((run : Run (Pair T Round) (LoopInput F (K × O)) (K × O)) → B.stands body.now run → BodyInside (pair_leq T.leq) (pair_lub T.lub) ⟦<Pair<T, Round> as Ord>⟧.cmp K.cmp V.cmp items (B.seal body.now) (B.due body.now) (B.charge body.now) run) → (run : Run T P.Input (Round × (K × O))) → it.stands flow.now run → LoopInside T.leq T.lub ⟦<Pair<T, Round> as Ord>⟧.cmp K.cmp V.cmp prep items round rounds (it.seal flow.now) (it.due flow.now) (it.charge flow.now) run }
{}
