//! The places of a tree in its text, by how tightly they bind.

ghost use Rattle.std.specs.Prelude.{◌≡◌};
ghost use Rattle.gvdl_printer.specs.Levels.{predicate_level, expression_level};

/// Where a predicate stands. What binds more loosely than its place is put in parentheses.
#[derive(Clone, Copy)]
pub enum PredicatePlace {
    /// A place of its own: any predicate stands bare.
    Alone,
    /// A member of a chain of `or`: a chain of `or` stands in parentheses.
    OrMember,
    /// A member of a chain of `and`, or behind `not`: each chain stands in parentheses.
    AndMember,
}

impl PredicatePlace {
    /// How tightly the place binds.
    pub fn level(self) -> u8
        ensures { result ≡ predicate_level self }
    {
        match self {
            PredicatePlace::Alone => 0,
            PredicatePlace::OrMember => 1,
            PredicatePlace::AndMember => 2,
        }
    }
}

/// Where an expression stands. What binds more loosely than its place is put in parentheses.
#[derive(Clone, Copy)]
pub enum ExpressionPlace {
    /// A place of its own: any expression stands bare.
    Alone,
    /// Before an `else`, or a side of a test: an `if` and a chain of `else` stand in parentheses.
    Branch,
    /// A member of a sum: a sum stands in parentheses, too.
    Term,
    /// A member of a product, or behind a `-`: each chain stands in parentheses.
    Factor,
}

impl ExpressionPlace {
    /// How tightly the place binds.
    pub fn level(self) -> u8
        ensures { result ≡ expression_level self }
    {
        match self {
            ExpressionPlace::Alone => 0,
            ExpressionPlace::Branch => 1,
            ExpressionPlace::Term => 2,
            ExpressionPlace::Factor => 3,
        }
    }
}
