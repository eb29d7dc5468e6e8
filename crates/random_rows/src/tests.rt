//! Random runs. Each file has those of an operator, or of some.

mod bodies;
mod joins;
mod linear;
mod loops;
mod reduces;
mod rounds;
mod runs;
