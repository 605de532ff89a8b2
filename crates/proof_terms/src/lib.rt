//! Proof terms: formulas are types, an implication is a product and checking a proof is typing.
//!
//! It stands on `formulas`. Its definitions are the tree of a proof (`specs/Tree.antt`), its depth and
//! size (`specs/Size.antt`), its holes and what fills them (`specs/Holes.antt`), and paths in it
//! (`specs/Paths.antt`). What filling does to holes and paths are the laws of `laws` (`specs/Laws.antt`).
#![tactic(auto)]

pub mod copying;
pub mod filling;
pub mod laws;
pub mod measures;
pub mod places;
pub mod proof;
mod rules;

pub use copying::copy;
pub use filling::{fill, swap_at, unfill};
pub use measures::{depth, size};
pub use places::{holes, path_to};
pub use proof::Proof;
