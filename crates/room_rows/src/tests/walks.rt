//! Walks over three arcs, by hand: from 0 to 1, from 1 to 2, and from 0 to 2.

ghost use Rattle.std.specs.Prelude.{◌≡◌, [], ◌∷◌, sum_by};
ghost use Rattle.walk_theory.specs.Walks.{IsWalk};
ghost use Rattle.room_rows.specs.Examples.{three, pair, heavy};

// Two arcs lead from 0 to 2, and one does; no arc leads from 1 to 1, and none is needed; arcs that don't meet are no walk, nor
// is an arc that isn't given, and no walk leads to 0 from 2.
fn small_walks()
    ensures two { IsWalk pair three 0 ((0, 1) ∷ (1, 2) ∷ []) 2 }
    ensures one { IsWalk pair three 0 ((0, 2) ∷ []) 2 }
    ensures none { IsWalk pair three 1 [] 1 }
    ensures weight { sum_by heavy ((0, 1) ∷ (1, 2) ∷ []) ≡ 3 }
    ensures apart { IsWalk pair three 0 ((0, 2) ∷ (1, 2) ∷ []) 2 → ⊥ }
    ensures other { IsWalk pair three 1 ((1, 0) ∷ []) 0 → ⊥ }
    ensures elsewhere { IsWalk pair three 0 [] 2 → ⊥ }
{}

#[test]
fn walks_are_told(_rt: HostRuntime) {
    small_walks();
}
