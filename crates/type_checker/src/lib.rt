//! The typing rules: which formula a proof term has in a context.
//!
//! It stands on `proof_terms` and `arith_axioms`. Its definition is the typing relation (`specs/Typing.antt`),
//! and the place of a fault is defined in `specs/Place.antt`. The rules computed (`specs/Rules.antt`,
//! `specs/Walk.antt`) are what the code follows; that they tell the same, and that typing is sound, are laws
//! (`laws`). The formulas that a proof names have numbers (`interner`, `specs/Interner.antt`), so that equal
//! ones are not looked at again; when two nodes of that table are equal is told by `hashed` (`specs/Keys.antt`).
//! `SameLaws` and `KeyLaws` in `specs/` are no definitions but lemmas, which the laws of `==` cite.
#![tactic(auto)]

mod fitting;
mod gather;
mod hashed;
mod heads;
mod instances;
mod interner;
pub mod laws;
mod leaves;
mod making;
mod matching;
mod nodes;
mod rules;
mod scope;
mod typed;
pub mod typing;
pub mod untyped;
mod walk;

pub use typing::type_of;
pub use untyped::Untyped;
