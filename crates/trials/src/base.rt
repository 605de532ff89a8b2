//! Each public call once, with ample memory. The expected values were worked out by hand.

ghost use Rattle.std.specs.Prelude.{◌≡◌, ◌<◌, true, length, IfOk};
ghost use Rattle.ck_base.specs.Outside.{begun, fresh};

use ck_base::{
    DeclFault, Decls, Failed, HoleScope, Kind, List, MemOrigin, MemSink, MemTarget, NamedBytes,
    NoMemory, Origin, Scope, Scopes, Sink, Sort, Target, Text,
};
use std::alloc::Global;
use std::test::Fail;

fn text(alloc: Global, bytes: &str) -> Result<Text, NoMemory>
    ensures { IfOk result (λ text. text ≡ bytes.now) }
{
    let mut text = Text::new(alloc);
    text.append(bytes.as_bytes())?;
    Ok(text)
}

fn list(alloc: Global, items: &[u8]) -> Result<List<u8>, NoMemory> {
    let mut list = List::new(alloc);
    for &item in items {
        list.push(item)?;
    }
    Ok(list)
}

fn only(alloc: Global, number: u64) -> Result<List<u64>, NoMemory> {
    let mut list = List::new(alloc);
    list.push(number)?;
    Ok(list)
}

fn named(alloc: Global, name: &str, bytes: &str) -> Result<NamedBytes, NoMemory> {
    Ok(NamedBytes {
        name: text(alloc, name)?,
        bytes: list(alloc, bytes.as_bytes())?,
    })
}

/// Reads once into four bytes, and answers how many came, and the four.
fn read(origin: &mut MemOrigin) -> Result<(usize, [u8; 4]), Failed>
    requires { origin.old.begun ≡ true }
    ensures { origin.new.begun ≡ true }
{
    let mut buf = [0; 4];
    let n = origin.read(&mut buf)?;
    Ok((n, buf))
}

/// Puts once, and answers what the target took.
fn put(target: &mut MemTarget, bytes: &[u8]) -> Result<usize, Failed>
    requires begun { target.old.stage ≡ begun }
    requires piece { 0 < length bytes.now }
    ensures { target.new.stage ≡ begun }
{
    target.put(bytes)
}

#[test]
fn a_list_keeps_its_items_in_order(rt: HostRuntime) -> Result<(), Fail> {
    let numbers = list(rt.alloc(), &[5, 7])?;
    assert_eq!(rt; numbers.len(), 2);
    assert_eq!(rt; numbers.get(1), Some(&7));
    assert_eq!(rt; numbers.get(2), None);
    assert_eq!(rt; numbers.as_slice(), [5, 7].as_slice());
    Ok(())
}

#[test]
fn a_list_gives_items_back(rt: HostRuntime) -> Result<(), Fail> {
    let mut numbers: List<u64> = only(rt.alloc(), 5)?;
    assert!(rt; numbers.len() == 1);
    assert_eq!(rt; numbers.set(0, 6), 5);
    assert_eq!(rt; numbers.pop(), Some(6));
    assert_eq!(rt; numbers.pop(), None);
    Ok(())
}

#[test]
fn a_text_grows_and_is_cut(rt: HostRuntime) -> Result<(), Fail> {
    let mut words = text(rt.alloc(), "while")?;
    words.append(b" true")?;
    assert_eq!(rt; words.as_bytes(), b"while true".as_slice());
    words.cut(4);
    assert_eq!(rt; words.as_bytes(), b"whil".as_slice());
    Ok(())
}

/// Declares a variable of integers, and answers its number.
fn declare(decls: &mut Decls, name: &str) -> Result<u32, DeclFault> {
    decls.add(name, Kind::Variable, Sort::Int)
}

fn is_bad(decls: &mut Decls, name: &str) -> bool {
    matches!(declare(decls, name), Err(DeclFault::BadName))
}

fn is_duplicate(decls: &mut Decls, name: &str, number: u32) -> bool {
    matches!(declare(decls, name), Err(DeclFault::Duplicate(n)) if n == number)
}

fn is_too_many(decls: &mut Decls, name: &str) -> bool {
    matches!(declare(decls, name), Err(DeclFault::TooMany))
}

/// Declares 64 names: the letters, pairs of neighbours among them, and triples up to `mno`.
fn full(alloc: Global) -> Result<Decls, DeclFault> {
    let letters = "abcdefghijklmnopqrstuvwxyz";
    let mut decls = Decls::new(alloc);
    for len in 1..4 {
        for start in 0..26 {
            if let Some(name) = letters.get(start..start + len)
                && decls.len() < 64
            {
                declare(&mut decls, name)?;
            }
        }
    }
    Ok(decls)
}

#[test]
fn a_table_numbers_its_names(rt: HostRuntime) -> Result<(), Fail> {
    let mut decls = Decls::new(rt.alloc());
    assert_eq!(rt; declare(&mut decls, "n")?, 0);
    assert_eq!(rt; decls.add("max_3", Kind::Constant, Sort::Bool)?, 1);
    assert!(rt; is_duplicate(&mut decls, "max_3", 1));
    assert_eq!(rt; decls.number("max_3"), Some(1));
    assert_eq!(rt; decls.number("max"), None);
    assert_eq!(rt; decls.len(), 2);
    Ok(())
}

#[test]
fn a_copy_has_the_same_declarations(rt: HostRuntime) -> Result<(), Fail> {
    let mut decls = Decls::new(rt.alloc());
    decls.add("big", Kind::Constant, Sort::Bool)?;
    let copy = decls.copy(rt.alloc())?;
    assert_eq!(rt; copy.len(), 1);
    assert!(rt; copy.at(1).is_none());
    let Some(decl) = copy.at(0) else {
        panic!(rt; "a copy lacks a declaration")
    };
    assert_eq!(rt; decl.name.as_bytes(), b"big".as_slice());
    assert_eq!(rt; decl.kind, Kind::Constant);
    assert_eq!(rt; decl.sort, Sort::Bool);
    Ok(())
}

#[test]
fn a_name_has_at_most_32_bytes(rt: HostRuntime) -> Result<(), Fail> {
    let mut decls = Decls::new(rt.alloc());
    assert_eq!(rt; declare(&mut decls, "abcdefghijklmnopqrstuvwxyz_01234")?, 0);
    assert!(rt; is_bad(&mut decls, "abcdefghijklmnopqrstuvwxyz_012345"));
    Ok(())
}

#[test]
fn what_is_no_name_is_not_declared(rt: HostRuntime) {
    let mut decls = Decls::new(rt.alloc());
    for text in ["", "_a", "1a", "aB", "a-b"] {
        assert!(rt; is_bad(&mut decls, text), "{text}");
    }
    for word in [
        "true", "false", "bottom", "not", "and", "or", "all", "ex", "int", "bool", "div", "mod",
    ] {
        assert!(rt; is_bad(&mut decls, word), "{word}");
    }
}

#[test]
fn a_table_holds_64_names(rt: HostRuntime) -> Result<(), Fail> {
    let mut decls = full(rt.alloc())?;
    assert_eq!(rt; decls.number("mno"), Some(63));
    assert!(rt; is_too_many(&mut decls, "nop"));
    assert!(rt; is_duplicate(&mut decls, "a", 0));
    assert!(rt; is_bad(&mut decls, "a b"));
    assert_eq!(rt; decls.len(), 64);
    Ok(())
}

#[test]
fn a_scope_belongs_to_a_hole(rt: HostRuntime) -> Result<(), Fail> {
    let mut scopes = Scopes::new(rt.alloc());
    let scope = Scope { sorts: 2, hyps: 1 };
    scopes.push(HoleScope { hole: 3, scope })?;
    assert_eq!(rt; scopes.get(0), Some(&HoleScope { hole: 3, scope }));
    Ok(())
}

#[test]
fn an_origin_reads_in_pieces(rt: HostRuntime) -> Result<(), Fail> {
    let alloc = rt.alloc();
    let mut files = List::new(alloc);
    files.push(named(alloc, "a", "one")?)?;
    files.push(named(alloc, "b", "hello")?)?;
    files.push(named(alloc, "b", "other")?)?;
    let mut origin = MemOrigin::new(files, 2, only(alloc, 3)?);
    assert_eq!(rt; origin.begin("c"), Err(Failed), "call 0");
    origin.begin("b")?;
    assert_eq!(rt; read(&mut origin), Ok((2, *b"he\0\0")), "call 2");
    assert_eq!(rt; read(&mut origin), Err(Failed), "call 3");
    assert_eq!(rt; read(&mut origin), Ok((2, *b"ll\0\0")), "call 4");
    assert_eq!(rt; read(&mut origin), Ok((1, *b"o\0\0\0")), "call 5");
    assert_eq!(rt; read(&mut origin), Ok((0, [0; 4])), "call 6");
    Ok(())
}

/// A target of one name and pieces of three bytes, whose call of that number fails.
fn target(alloc: Global, failing: u64) -> Result<MemTarget, NoMemory>
    ensures { IfOk result (λ target. target.stage ≡ fresh) }
{
    let name = text(alloc, "out")?;
    Ok(MemTarget::new(alloc, name, 3, only(alloc, failing)?))
}

#[test]
fn a_target_takes_its_name(rt: HostRuntime) -> Result<(), Fail> {
    let mut target = target(rt.alloc(), 2)?;
    target.create("out")?;
    assert_eq!(rt; put(&mut target, b"hello"), Ok(3), "call 1");
    assert_eq!(rt; put(&mut target, b"lo"), Err(Failed), "call 2");
    assert_eq!(rt; put(&mut target, b"lo"), Ok(2), "call 3");
    assert_eq!(rt; target.bytes(), b"hello".as_slice());
    Ok(())
}

#[test]
fn a_target_takes_no_other_name(rt: HostRuntime) -> Result<(), Fail> {
    let mut target = target(rt.alloc(), 2)?;
    assert_eq!(rt; target.create("other"), Err(Failed));
    assert_eq!(rt; target.bytes(), b"".as_slice());
    Ok(())
}

#[test]
fn a_sink_takes_pieces(rt: HostRuntime) -> Result<(), Fail> {
    let alloc = rt.alloc();
    let mut sink = MemSink::new(alloc, 4, only(alloc, 1)?);
    assert_eq!(rt; sink.put(b"valid"), Ok(4), "call 0");
    assert_eq!(rt; sink.put(b"d\n"), Err(Failed), "call 1");
    assert_eq!(rt; sink.put(b"d\n"), Ok(2), "call 2");
    assert_eq!(rt; sink.bytes(), b"valid\n".as_slice());
    Ok(())
}
