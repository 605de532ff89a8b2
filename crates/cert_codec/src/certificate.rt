//! The types of certificates.

use ck_base::{Decl, Decls, List};
use formulas::Formula;
use proof_terms::Proof;

/// A node of a derived program, with the proofs of its obligations. `Skip` has the proof that the
/// precondition implies the postcondition.
#[derive(Drop)]
pub enum Node {
    Skip(Proof),
}

/// A certificate as its bytes spell it: declarations, precondition, postcondition and node. Nothing is
/// known of its names, sorts and sizes.
#[derive(Drop)]
pub struct RawCertificate {
    pub decls: List<Decl>,
    pub pre: Formula,
    pub post: Formula,
    pub node: Node,
}

/// A certificate whose declared names keep their rule and are distinct.
#[derive(Drop)]
pub struct Certificate {
    pub decls: Decls,
    pub pre: Formula,
    pub post: Formula,
    pub node: Node,
}
