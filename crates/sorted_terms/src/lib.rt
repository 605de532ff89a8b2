//! Terms over integers and truth values, with declared names and bound variables.
//!
//! It stands on `ck_base`. Its definitions are in `specs/`: the tree of a term (`Tree.antt`), the values
//! of terms (`Values.antt`), their sorts, size and depth, and the place of a fault (`Sorts.antt`), scopes
//! of bound variables (`Variables.antt`), substitution (`Substitution.antt`), and the weights of terms as
//! polynomials (`Weights.antt`). What substitution does to values and sorts are the laws of `laws`
//! (`Laws.antt`).
#![tactic(auto)]

pub mod copying;
pub mod extents;
pub mod laws;
pub mod measures;
pub mod signs;
pub mod sorts;
pub mod substitution;
pub mod term;
pub mod variables;
pub mod weights;

pub use copying::{copy, same};
pub use extents::{Extent, extent_of, spend_instance, spend_replaced};
pub use measures::{depth, size, spend};
pub use sorts::{BadSort, sort_of, sort_under};
pub use substitution::{instantiate, replace_var, shift, unshift};
pub use term::Term;
pub use variables::{Variables, sort_at};
pub use weights::{expansions, weight};
