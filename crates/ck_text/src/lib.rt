//! Texts of terms, formulas and proofs: how they are written, and which tree each means.
//!
//! It stands on `formulas` and `proof_terms`. Its definitions are in `specs/`, those of proofs in files of their
//! own: the tokens of a text (`Tokens.antt`); what is written, with the trees that it means (`Texts.antt`,
//! `ProofTexts.antt`); the texts of trees and their bytes (`Printing.antt`, `ProofPrinting.antt`); what reading
//! bytes comes to, a tree or a fault and its column (`Reading.antt`, `ProofReading.antt`); and what is proved of
//! all of them (the files whose names end in `Laws`). `Machine.antt` and `ProofMachine.antt` have the steps of a
//! reader over tokens, `Items.antt` and `ProofItems.antt` the same steps over what the code keeps of each text,
//! and the files `Views`, `ProofViews`, `Printers` and `ProofPrinters` words for parts of the code.
#![tactic(auto)]

mod digits;
pub mod head;
mod items;
pub mod laws;
mod names;
mod printing;
mod proof_calls;
mod proof_parts;
mod proof_printing;
mod proof_reader;
mod proof_reading;
mod reader;
mod reading;
mod scan;
mod text_fault;
pub mod token;

pub use head::Head;
pub use printing::{print_formula, print_term};
pub use proof_printing::print_proof;
pub use proof_reading::read_proof;
pub use reading::{read_formula, read_term};
pub use text_fault::TextFault;
pub use token::{Mark, Prefix, Quantifier, Sign};
