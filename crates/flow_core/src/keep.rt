//! Tests of records.

ghost use Rattle.std.specs.Prelude.{◌≡◌, Bool};

/// A test of records: what it answers is a function of the object and the argument. It takes no memory.
pub trait Keep<A> {
    /// The test.
    ghost keeps: { Self → A → Bool };

    /// Whether `a` passes.
    fn keep(&self, a: &A) -> bool
        ensures { result ≡ keeps self.now a.now };
}
