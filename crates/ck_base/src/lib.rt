//! The base of every other crate: sorts and declared names, lists and texts that contracts see as
//! lists, the limits of the tool, and the outside as three traits with devices in memory.
//!
//! It stands on `indexmap` and `thiserror` alone. Its definitions are in `specs/`: the rule for names
//! (`Names.antt`), what a call on the outside does (`Outside.antt`), and what the devices in memory add
//! to that (`Memory.antt`).
#![tactic(auto)]

pub mod decl;
pub mod decl_fault;
pub mod limits;
pub mod list;
pub mod memory;
pub mod names;
pub mod no_memory;
pub mod outside;
pub mod scope;
pub mod text;

pub use decl::{Decl, Decls, Kind, Sort};
pub use decl_fault::DeclFault;
pub use list::List;
pub use memory::{MemOrigin, MemSink, MemTarget};
pub use names::is_name;
pub use no_memory::NoMemory;
pub use outside::{Failed, NamedBytes, Origin, Sink, Target};
pub use scope::{HoleScope, Scope, Scopes};
pub use text::Text;
