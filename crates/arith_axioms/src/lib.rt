//! The axioms of arithmetic and of truth values, induction, computing, and terms as polynomials.
//!
//! It stands on `formulas`. Its definitions are in `specs/`: the table of the axioms and the induction
//! form (`Axioms.antt`), what computing a term tells (`Computing.antt`), the expansion of a term with its
//! totals (`Polynomials.antt`), and what `ring` tells of two terms (`Ring.antt`). That axioms, induction
//! forms and computed terms are true, and that terms with the same totals are equal, are laws of `laws`
//! (`Laws.antt`).
#![tactic(auto)]

pub mod axioms;
pub mod comparing;
pub mod computing;
mod expanding;
pub mod factor;
pub mod induction_form;
pub mod laws;
mod making;
pub mod no_compute;
pub mod no_ring;
mod products;
mod table;

pub use axioms::{axiom, is_axiom};
pub use comparing::ring;
pub use computing::{compute, is_closed};
pub use factor::Factor;
pub use induction_form::induction;
pub use no_compute::NoCompute;
pub use no_ring::NoRing;
