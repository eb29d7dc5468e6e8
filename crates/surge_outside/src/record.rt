//! What stands in batches and traces.

ghost use Rattle.std.specs.Prelude.{◌≡◌};
ghost use Rattle.std.specs.declared.cmp.Ordering.TheVariants.{Equal};
ghost use Rattle.std.proofs.lemmas.Map.Lookups.{exact_unsigned, exact_signed, exact_pairs};

/// A small value that stands in a batch of differences or in a trace. Its order tells values apart: two that compare
/// as equal are one value.
pub trait Record: Copy + Ord {
    ghost same: { (x y : Self) → Self.cmp x y ≡ Equal → x ≡ y };
}

impl Record for u32 {
    ghost same = { exact_unsigned };
}

impl Record for u64 {
    ghost same = { exact_unsigned };
}

impl Record for i64 {
    ghost same = { exact_signed };
}

impl<A: Record, B: Record> Record for (A, B) {
    ghost same = { exact_pairs A.cmp B.cmp A.same B.same };
}
