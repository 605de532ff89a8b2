//! First-order formulas over terms, and their truth in the standard integers.
//!
//! It stands on `sorted_terms`. Its definitions are in `specs/`: the tree of a formula (`Tree.antt`),
//! its truth (`Truth.antt`), sorting and size (`Sorts.antt`), substitution (`Substitution.antt`), and
//! what a context stands for (`Context.antt`). What substitution does to truth and sorts, and that truth
//! without quantifiers is computed (`Computed.antt`), are the laws of `laws` (`Laws.antt`).
#![tactic(auto)]

pub mod context;
pub mod copying;
pub mod extents;
pub mod formula;
pub mod laws;
pub mod measures;
pub mod signs;
pub mod sorts;
pub mod substitution;

pub use context::Context;
pub use copying::{copy, same};
pub use extents::{fits_instance, fits_replace};
pub use formula::Formula;
pub use measures::{depth, fits, size};
pub use sorts::{well_sorted, well_sorted_under};
pub use substitution::{instantiate, replace_var, shift, unshift};
