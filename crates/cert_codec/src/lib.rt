//! Certificates and their one spelling as bytes.
//!
//! It stands on `proof_terms`. Its definitions are in `specs/`: the tree of a certificate (`Tree.antt`), its
//! spelling (`Spelling.antt`), what begins one (`Front.antt`), and the laws of spellings (`Laws.antt`).
//! `Reading.antt` has the steps of the reader, which no public contract speaks of.
#![tactic(auto)]

pub mod certificate;
pub mod fault;
pub mod laws;
mod parts;
mod reading;
mod stop;
mod tags;
mod writing;

pub use certificate::{Certificate, Node, RawCertificate};
pub use fault::DecodeFault;
pub use reading::decode;
pub use writing::encode;
