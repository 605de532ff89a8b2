//! The lines of a script, and what each means.
//!
//! It stands on `ck_text` and `proof_terms`. Its definitions are in `specs/`: the tokens of a line
//! (`Tokens.antt`), written formulas and proofs with the trees that they mean (`Texts.antt`), lines and
//! scripts (`Lines.antt`), and the law that a line means one thing (`Laws.antt`). `Reading.antt` has the steps of the reader, which no public contract speaks of; that it reads exactly the
//! written lines is proved in `proofs/Readers.antt`.
#![tactic(auto)]

pub mod laws;
pub mod lines;
mod reading;
mod stop;
mod token;

pub use lines::{Line, LineFault, OpenHole, is_blank_line, next_line, read_line};
