//! What a reduce owes: keys, their marks, and where they are evaluated.
//!
//! A reduce makes a function of the values of each key. At partially ordered times the function of a key can change where
//! its input changes, and also at least upper bounds of such times (McSherry, Murray, Isaacs and Isard, "Differential
//! dataflow", 2013). This room has no code: it says which keys a step evaluates (`specs/Evaluated`), what holds of one key
//! (`specs/Keys`), and what follows for it alone (`specs/KeyLaws`, `KeySteps`). What a body keeps of all keys is told by
//! relations, whatever it is (`specs/Kept`): whose change by a step and by a seal is as stated there keeps its runs
//! (`specs/KeptSteps`), and what it made is the function of what it was fed wherever nothing is due (`specs/KeptLaws`). It
//! stands on runs and collections; `diff_reduce` stands on it, with traces as what is kept.
#![tactic(auto)]

ghost use Rattle.flow_core.specs.Runs.{Step};
ghost use Rattle.lattice_time.specs.Lattice.{IsLattice};

use flow_core::Operator;
use lattice_time::Time;
use weighted::Batch;
