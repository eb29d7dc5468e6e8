//! Functions from one record to several.

ghost use Rattle.std.specs.Prelude.{◌≡◌, List, [], OnOk};

use surge_outside::{List, NoMemory};

/// A function from a record to any number of records: what it answers is a function of the object and the argument.
pub trait Expand<A, B> {
    /// The function.
    ghost gives: { Self → A → List B };

    /// Writes the function's value at `a` into `into`, in order. A record may stand in it any number of times.
    ///
    /// The caller owes that `into` is empty. Errors: out of memory; `into` is then any list.
    fn expand(&self, a: A, into: &mut List<B>) -> Result<(), NoMemory>
        requires { into.old ≡ [] }
        ensures { OnOk result (into.new ≡ gives self.now a) };
}
