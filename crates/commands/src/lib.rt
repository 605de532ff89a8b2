//! The commands of the tool: words in, a status out, over an outside that is handed over.
//!
//! `cocktail` is the top call, whose clauses are what the tool promises (`top.rt`). The definitions behind
//! them are in `specs/`: the session of a script (`Session.antt`), what is printed of a valid file
//! (`Texts.antt`), the commands (`Commands.antt`), how each of them ends (`Ends.antt`), and what holds of
//! sessions (`Laws.antt`). What a valid file is, and what it promises, is defined in `cert_check`.
#![tactic(auto)]

mod check;
mod derive;
pub mod laws;
mod printing;
mod reading;
mod session;
mod status;
mod texts;
mod top;
mod words;
mod writing;

pub use status::Status;
pub use top::cocktail;
