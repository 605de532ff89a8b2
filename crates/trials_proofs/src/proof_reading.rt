//! Proofs that are read, with levels, nodes and columns worked out by hand from the grammar.

use crate::asking::{Ask, answer, nested};
use ck_base::{DeclFault, Scope};
use std::alloc::Global;
use std::test::Fail;

/// Whether a proof is read so, by its levels, nodes and holes, or has the fault, with one variable and two
/// hypotheses in scope.
fn reads(alloc: Global, text: &[u8], wanted: &[u8]) -> Result<bool, DeclFault> {
    let scope = Scope { sorts: 1, hyps: 2 };
    Ok(answer(alloc, Ask::Measures, scope, text)?.as_bytes() == wanted)
}

#[test]
fn proofs_are_read(rt: HostRuntime) -> Result<(), Fail> {
    let alloc = rt.alloc();
    assert!(rt; reads(alloc, b"#1", b"levels 1, nodes 1, holes")?);
    assert!(rt;
        reads(
            alloc,
            b"?4294967295",
            b"levels 1, nodes 1, holes 4294967295"
        )?
    );
    assert!(rt; reads(alloc, b"lam(b,#2)", b"levels 2, nodes 4, holes")?);
    assert!(rt;
        reads(
            alloc,
            b"app(#0, inst(?3, x + _0))",
            b"levels 3, nodes 7, holes 3"
        )?
    );
    assert!(rt;
        reads(
            alloc,
            b"pack ( int , (_1 = 3) , x+1 , refl((x)) )",
            b"levels 2, nodes 10, holes"
        )?
    );
    assert!(rt;
        reads(
            alloc,
            b"gen(bool, induct(_1 /\\ _2 = _0))",
            b"levels 2, nodes 9, holes"
        )?
    );
    assert!(rt;
        reads(
            alloc,
            b"cases(#0, unpack(#2, #3), axiom(7))",
            b"levels 3, nodes 6, holes"
        )?
    );
    Ok(())
}

#[test]
fn proof_faults_have_columns(rt: HostRuntime) -> Result<(), Fail> {
    let alloc = rt.alloc();
    assert!(rt; reads(alloc, b"", b"syntax, column 1")?);
    assert!(rt; reads(alloc, b"lam(b #0)", b"syntax, column 7")?);
    assert!(rt; reads(alloc, b"lam(b)", b"syntax, column 6")?);
    assert!(rt; reads(alloc, b"first(#0, #1)", b"syntax, column 9")?);
    assert!(rt; reads(alloc, b"lemma(#0)", b"syntax, column 1")?);
    assert!(rt; reads(alloc, b"axiom(4294967296)", b"syntax, column 7")?);
    assert!(rt; reads(alloc, b"app(#0, #1", b"syntax, column 11")?);
    assert!(rt; reads(alloc, b"app(#0, #2)", b"unknown name, column 9")?);
    assert!(rt; reads(alloc, b"lam(q, #9)", b"unknown name, column 5")?);
    assert!(rt;
        reads(
            alloc,
            b"gen(int, lam(_2 = 0, #2))",
            b"unknown name, column 14"
        )?
    );
    Ok(())
}

#[test]
fn proof_levels_are_counted(rt: HostRuntime) -> Result<(), Fail> {
    let alloc = rt.alloc();
    let deep = nested(alloc, 2_047, b"lam(true, ", b"#0", b")")?;
    assert!(rt; reads(alloc, deep.as_bytes(), b"levels 2048, nodes 6142, holes")?);
    let deep = nested(alloc, 2_048, b"lam(true, ", b"#0", b")")?;
    assert!(rt; reads(alloc, deep.as_bytes(), b"syntax, column 20481")?);
    Ok(())
}
