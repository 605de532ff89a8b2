//! What the tests ask: whether a command ends as it should over an outside in memory.

use ck_base::{List, MemOrigin, MemSink, MemTarget, NamedBytes, NoMemory, Text};
use commands::{Status, cocktail};
use std::alloc::Global;

/// The calls that fail on the origin, the target and the sink, numbered from 0.
#[derive(Clone, Copy)]
pub(crate) struct Faults<'a> {
    pub(crate) reads: &'a [u64],
    pub(crate) writes: &'a [u64],
    pub(crate) puts: &'a [u64],
}

/// No call fails.
pub(crate) const NO_FAULTS: Faults<'static> = Faults {
    reads: &[],
    writes: &[],
    puts: &[],
};

/// How a command ends: its status, what it printed, and the bytes of the file that it wrote.
#[derive(Clone, Copy)]
pub(crate) struct Ending<'a> {
    pub(crate) status: Status,
    pub(crate) printed: &'a [u8],
    pub(crate) written: &'a [u8],
}

fn text(alloc: Global, bytes: &[u8]) -> Result<Text, NoMemory> {
    let mut text = Text::new(alloc);
    text.append(bytes)?;
    Ok(text)
}

fn file(alloc: Global, name: &[u8], bytes: &[u8]) -> Result<NamedBytes, NoMemory> {
    let mut content = List::new(alloc);
    for byte in bytes {
        content.push(*byte)?;
    }
    Ok(NamedBytes {
        name: text(alloc, name)?,
        bytes: content,
    })
}

fn numbers(alloc: Global, items: &[u64]) -> Result<List<u64>, NoMemory> {
    let mut list = List::new(alloc);
    for item in items {
        list.push(*item)?;
    }
    Ok(list)
}

fn line_of(alloc: Global, words: &[&str]) -> Result<Vec<String>, NoMemory> {
    let mut line = Vec::new(alloc);
    for word in words {
        line.push(String::from_str(alloc, word)?)?;
    }
    Ok(line)
}

/// Runs these words over an origin that has the one file `c` with these bytes and gives at most 4,096 of
/// them at a time, a target that takes the name `d` alone and ten bytes at a time, and a sink that takes five
/// at a time. Says whether the run ends so.
pub(crate) fn ends(
    alloc: Global,
    words: &[&str],
    bytes: &[u8],
    faults: Faults,
    wanted: Ending,
) -> Result<bool, NoMemory> {
    let line = line_of(alloc, words)?;
    let mut files = List::new(alloc);
    files.push(file(alloc, b"c", bytes)?)?;
    let mut input = MemOrigin::new(files, 4_096, numbers(alloc, faults.reads)?);
    let mut target = MemTarget::new(
        alloc,
        text(alloc, b"d")?,
        10,
        numbers(alloc, faults.writes)?,
    );
    let mut out = MemSink::new(alloc, 5, numbers(alloc, faults.puts)?);
    let status = cocktail(alloc, line.as_slice(), &mut input, &mut target, &mut out);
    Ok(status == wanted.status && out.bytes() == wanted.printed && target.bytes() == wanted.written)
}

/// `check c` ends with this status and these lines, and writes nothing.
pub(crate) fn checks(
    alloc: Global,
    bytes: &[u8],
    faults: Faults,
    status: Status,
    printed: &[u8],
) -> Result<bool, NoMemory> {
    let wanted = Ending {
        status,
        printed,
        written: b"",
    };
    ends(alloc, &["check", "c"], bytes, faults, wanted)
}

/// `derive c d` ends with this status and these lines, and writes these bytes.
pub(crate) fn derives(
    alloc: Global,
    script: &[u8],
    faults: Faults,
    wanted: Ending,
) -> Result<bool, NoMemory> {
    ends(alloc, &["derive", "c", "d"], script, faults, wanted)
}

/// One put on the sink fails.
pub(crate) fn put_fails(call: &[u64]) -> Faults<'_> {
    Faults {
        reads: &[],
        writes: &[],
        puts: call,
    }
}

/// One call on the origin fails.
pub(crate) fn read_fails(call: &[u64]) -> Faults<'_> {
    Faults {
        reads: call,
        writes: &[],
        puts: &[],
    }
}

/// One call on the target fails.
pub(crate) fn write_fails(call: &[u64]) -> Faults<'_> {
    Faults {
        reads: &[],
        writes: call,
        puts: &[],
    }
}
