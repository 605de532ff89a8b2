//! Derivations: a triple, and the steps that derive its program together with the proof of what is owed.
//!
//! It stands on `cert_check` and `script_reader`. Its definitions are in `specs/`: derivations (`Derivation.antt`),
//! what each step makes of one (`Steps.antt`), what holds of all that steps reach (`Derived.antt`), and the
//! printed line of the open hole (`Printing.antt`). That whatever is exported is a valid file is the law of
//! `laws` (`Laws.antt`), proved in `proofs/Derived.antt`.
#![tactic(auto)]

pub mod derivation;
pub mod laws;
pub mod printing;

pub use derivation::{Derivation, StepFault};
