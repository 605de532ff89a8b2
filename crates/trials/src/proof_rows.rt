//! Proofs: their nodes.

use crate::asking;
use ck_base::{DeclFault, Scope};
use ck_text::read_proof;
use proof_terms::size;
use std::alloc::Global;
use std::test::Fail;

/// The nodes of a closed proof.
fn nodes(alloc: Global, text: &str) -> Result<u32, DeclFault> {
    let bytes = text.as_bytes();
    if bytes.len() > 1_000 {
        return Err(DeclFault::TooMany);
    }
    match read_proof(
        alloc,
        &asking::names(alloc)?,
        Scope { sorts: 0, hyps: 0 },
        bytes,
    ) {
        Ok(p) => Ok(size(&p)),
        Err(fault) => Err(asking::unread(fault)),
    }
}

/// A lambda over `true` around a hypothesis: two proof nodes, a formula node and a term node.
#[test]
fn counts_nodes(rt: HostRuntime) -> Result<(), Fail> {
    assert_eq!(rt; nodes(rt.alloc(), "lam(true, #0)")?, 4);
    Ok(())
}
