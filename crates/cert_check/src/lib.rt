//! Whether bytes are a valid certificate, and what a valid one promises.
//!
//! It stands on `cert_codec` and `type_checker`. Its definitions are in `specs/`: programs and their runs
//! (`Programs.antt`, `Runs.antt`), when a node proves its triple (`Proves.antt`), and valid files
//! (`Valid.antt`). That derived programs keep their promise is the law of `laws` (`Laws.antt`), proved in
//! `proofs/Sound.antt`.
#![tactic(auto)]

pub mod checking;
pub mod laws;

pub use checking::{CheckFault, check};
