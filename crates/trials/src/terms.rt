//! Terms: copies, measures, sorts, substitution and weights. With so many variables in scope `_0` is the outermost.

ghost use Rattle.std.specs.Prelude.{IfOk};
ghost use Rattle.sorted_terms.specs.Tree.{term_tree};
ghost use Rattle.sorted_terms.specs.Substitution.{HasTermIndicesBelow};

use crate::asking;
use ck_base::{Decls, List, NoMemory, Sort};
use sorted_terms::{
    Term, Variables, copy, depth, expansions, instantiate, replace_var, same, shift, size, sort_at,
    sort_of, spend, unshift, weight,
};
use std::alloc::Global;
use std::test::Fail;

/// A term of 7 nodes on 4 levels, whose last is index 1.
const SUM_BELOW: &str = "_1 + 1 < 2 and _0";

#[test]
fn copies(rt: HostRuntime) -> Result<(), Fail> {
    let alloc = rt.alloc();
    assert!(rt; asking::copies(alloc, 2, SUM_BELOW, SUM_BELOW)?);
    assert!(rt; !asking::copies(alloc, 2, SUM_BELOW, "_0")?);
    assert!(rt; !asking::copies(alloc, 2, SUM_BELOW, "_1 + 1 < 2 and _1")?);
    Ok(())
}

#[test]
fn measures(rt: HostRuntime) -> Result<(), Fail> {
    let alloc = rt.alloc();
    assert_eq!(rt; asking::spends(alloc, 2, SUM_BELOW, 6, 4)?, None);
    assert_eq!(rt; asking::spends(alloc, 2, SUM_BELOW, 7, 3)?, None);
    assert_eq!(rt; asking::spends(alloc, 2, SUM_BELOW, 10, 4)?, Some(3));
    let told = asking::measures(alloc, 2, SUM_BELOW)?;
    assert_eq!(rt; told.as_str(), "levels 4, nodes 7");
    Ok(())
}

/// With two variables in scope, `_0` is of sort bool and `_1` of sort int.
#[test]
fn finds_sorts(rt: HostRuntime) -> Result<(), Fail> {
    for (text, wanted) in [
        ("1 + 1", "int"),
        ("1 - 1", "int"),
        ("1 * 1", "int"),
        ("-(1)", "int"),
        ("1 = 1", "bool"),
        ("1 < 1", "bool"),
        ("1 <= 1", "bool"),
        ("not true", "bool"),
        ("true and true", "bool"),
        ("true or true", "bool"),
    ] {
        let told = asking::sort_of(rt.alloc(), 2, text)?;
        assert_eq!(rt; told.as_str(), wanted, "{text}");
    }
    for (text, wanted) in [("_1", "int"), ("_0", "bool")] {
        let told = asking::sort_of(rt.alloc(), 2, text)?;
        assert_eq!(rt; told.as_str(), wanted, "{text}");
    }
    Ok(())
}

#[test]
fn finds_places(rt: HostRuntime) -> Result<(), Fail> {
    // With a third variable in scope, `_0` is an index that has no sort.
    let told = asking::sort_of(rt.alloc(), 3, "_0")?;
    assert_eq!(rt; told.as_str(), "place 0");
    for (text, wanted) in [
        ("x", "place 0"),
        ("-true", "place 1"),
        ("not 1", "place 1"),
        ("1 + true", "place 2"),
        ("true = true", "place 2"),
        ("1 and true", "place 2"),
        // `and` takes no number, and is the last of 7 nodes.
        ("_1 + 1 < 2 and _1", "place 6"),
        // The sum takes no truth value. Before it come 1 and its own parts.
        ("1 < true + _1", "place 3"),
    ] {
        let told = asking::sort_of(rt.alloc(), 2, text)?;
        assert_eq!(rt; told.as_str(), wanted, "{text}");
    }
    Ok(())
}

#[test]
fn looks_outward(rt: HostRuntime) -> Result<(), Fail> {
    let alloc = rt.alloc();
    let vars = asking::two_sorts(alloc)?;
    let outer = Variables::Outer(&vars);
    let inner = Variables::Under(Sort::Bool, &outer);
    assert_eq!(rt; sort_at(&inner, 2), Some(Sort::Bool));
    assert_eq!(rt; asking::sort_under(alloc, &inner, 3, "_1")?, "int");
    assert_eq!(rt; asking::sort_under(alloc, &outer, 3, "_0")?, "none");
    assert_eq!(rt; asking::sort_under(alloc, &outer, 2, "x")?, "bool");
    assert_eq!(rt; asking::sort_under(alloc, &outer, 2, "y")?, "none");
    Ok(())
}

#[test]
fn shifts(rt: HostRuntime) -> Result<(), Fail> {
    let alloc = rt.alloc();
    // The indices 1 and 2, from 2 on higher by 3.
    assert!(rt; asking::shifts(alloc, 6, "_4 + _3", 3, 2, "_4 + _0")?);
    assert!(rt; asking::unshifts(alloc, 6, "_5 + _3", 1, "_5 + _4")?);
    assert!(rt; asking::unshifts(alloc, 6, "not _4", 1, "none")?);
    Ok(())
}

#[test]
fn substitutes(rt: HostRuntime) -> Result<(), Fail> {
    let alloc = rt.alloc();
    // Index 0 stays, index 1 becomes the inserted term, shifted by one, and index 2 is lowered.
    assert!(rt; asking::instantiates(alloc, 6, "_5 + _4 + _3", "_1", 1, "_5 + _0 + _4")?);
    // `y` becomes index 0, shifted by two.
    assert!(rt; asking::replaces(alloc, 6, "x + y", (1, "_5", 2), "x + _3")?);
    Ok(())
}

#[test]
fn weighs(rt: HostRuntime) -> Result<(), Fail> {
    let alloc = rt.alloc();
    for (text, wanted) in [
        ("0", 1),
        ("170141183460469231731687303715884105727", (1 << 127) - 1),
        ("170141183460469231731687303715884105727 + x", 1 << 127),
        ("-1180591620717411303424 * 1180591620717411303424", 1 << 127),
    ] {
        assert_eq!(rt; asking::weight(alloc, text)?, wanted, "{text}");
    }
    Ok(())
}

#[test]
fn counts_expansions(rt: HostRuntime) -> Result<(), Fail> {
    let alloc = rt.alloc();
    for (count, wanted) in [(11, 2_048), (12, 4_096), (20, 1_000_000)] {
        let text = asking::product(alloc, "(x + 1)", count - 1)?;
        assert_eq!(rt;
            asking::expansions(alloc, text.as_str())?,
            wanted,
            "{count} factors"
        );
    }
    Ok(())
}

/// Denials of `true`, without any index. No text of so many levels is read.
fn denials(alloc: Global, levels: u32) -> Result<Term, NoMemory>
    ensures { IfOk result (λ t. HasTermIndicesBelow 0 (term_tree t)) }
{
    let mut t = Term::Truth(true);
    for _ in 1..levels {
        t = Term::Not(Box::new(alloc, t)?);
    }
    Ok(t)
}

#[test]
fn goes_deep(rt: HostRuntime) -> Result<(), Fail> {
    let alloc = rt.alloc();
    let t = denials(alloc, 1_024)?;
    assert_eq!(rt; spend(&t, 1_025, 1_024), Some(1));
    assert_eq!(rt; size(&t), 1_024);
    assert_eq!(rt; depth(&t), 1_024);
    assert_eq!(rt; weight(&t), 1);
    assert_eq!(rt; expansions(&t), 1);
    assert!(rt; sort_of(&Decls::new(alloc), &List::new(alloc), &t).is_ok());
    assert!(rt; same(&t, &copy(alloc, &t)?));
    assert!(rt; same(&t, &shift(alloc, &t, 1, 0)?));
    assert!(rt; same(&t, &instantiate(alloc, &t, &Term::Int(1), 0)?));
    assert!(rt; same(&t, &replace_var(alloc, &t, 0, &Term::Int(1), 0)?));
    assert!(rt; unshift(alloc, &t, 0)?.is_some());
    Ok(())
}
