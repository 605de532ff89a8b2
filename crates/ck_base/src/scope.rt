//! How many bound variables and hypotheses stand around a text, and around each open hole.

use crate::list::List;

/// How many bound variables and how many hypotheses stand around a text.
#[derive(Clone, Copy, Debug, PartialEq, Eq)]
pub struct Scope {
    pub sorts: u32,
    pub hyps: u32,
}

/// The scope of an open hole. `hole` is the hole's number.
#[derive(Clone, Copy, Debug, PartialEq, Eq)]
pub struct HoleScope {
    pub hole: u32,
    pub scope: Scope,
}

/// The scopes of open holes, one of each.
pub type Scopes = List<HoleScope>;
