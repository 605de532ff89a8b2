//! The real outside: files and standard output. They keep the counts of their traits, and tell nothing of
//! names or content.

ghost use Rattle.std.specs.Prelude.{◌≡◌, ◌≤◌, None, is_some};
ghost use Rattle.ck_base.specs.Outside.{Rose, fresh};
ghost use Rattle.cocktail.specs.Adapters.{stage_of};

use ck_base::{Failed, Origin, Sink, Target};
use std::fs::File;
use std::io::{Read, Write};
use std::rt::Files;

// A call failed: the count of faults goes up by one, or stays at its last value.
fn fault(faults: &mut u64) -> Failed
    ensures later { faults.old ≤ faults.new }
    ensures rose { Rose faults.old faults.new }
{
    *faults = faults.saturating_add(1);
    Failed
}

/// Files of the file system, read one at a time.
#[derive(Drop)]
pub struct FileOrigin<'a> {
    rt: &'a HostRuntime,
    file: Option<File>,
    faults: u64,
}

impl<'a> FileOrigin<'a> {
    /// No file is open yet.
    pub fn new(rt: &'a HostRuntime) -> FileOrigin<'a> {
        FileOrigin {
            rt,
            file: None,
            faults: 0,
        }
    }
}

impl Origin for FileOrigin<'_> {
    ghost files = { λ _. None };

    ghost left = { λ _. None };

    ghost is_begun = { λ o. is_some o.file };

    ghost faults = { λ o. o.faults };

    fn begin(&mut self, name: &str) -> Result<(), Failed> {
        self.file = None;
        match File::open(self.rt, name) {
            Ok(file) => {
                self.file = Some(file);
                Ok(())
            }
            Err(_) => Err(fault(&mut self.faults)),
        }
    }

    fn read(&mut self, buf: &mut [u8]) -> Result<usize, Failed> {
        let Some(file) = &mut self.file else {
            unreachable!()
        };
        match file.read(buf) {
            Ok(count) => Ok(count),
            Err(_) => Err(fault(&mut self.faults)),
        }
    }
}

/// How far a target is: nothing was created, its file is open, or a creation failed.
#[derive(Drop)]
enum Progress {
    Fresh,
    Begun(File),
    Spent,
}

/// One file of the file system, which is written from its beginning.
#[derive(Drop)]
pub struct FileTarget<'a> {
    rt: &'a HostRuntime,
    progress: Progress,
    faults: u64,
}

impl<'a> FileTarget<'a> {
    /// Nothing is created yet.
    pub fn new(rt: &'a HostRuntime) -> FileTarget<'a>
        ensures { stage_of result.progress ≡ fresh }
    {
        FileTarget {
            rt,
            progress: Progress::Fresh,
            faults: 0,
        }
    }
}

impl Target for FileTarget<'_> {
    ghost takes = { λ _. None };

    ghost written = { λ _. None };

    ghost stage = { λ t. stage_of t.progress };

    ghost faults = { λ t. t.faults };

    fn create(&mut self, name: &str) -> Result<(), Failed> {
        match File::create(self.rt, name) {
            Ok(file) => {
                self.progress = Progress::Begun(file);
                Ok(())
            }
            Err(_) => {
                self.progress = Progress::Spent;
                Err(fault(&mut self.faults))
            }
        }
    }

    fn put(&mut self, bytes: &[u8]) -> Result<usize, Failed> {
        let Progress::Begun(file) = &mut self.progress else {
            unreachable!()
        };
        match file.write(bytes) {
            Ok(taken) if taken > 0 => Ok(taken),
            _ => Err(fault(&mut self.faults)),
        }
    }
}

/// Standard output.
#[derive(Drop)]
pub struct StdSink<'a> {
    rt: &'a HostRuntime,
    faults: u64,
}

impl<'a> StdSink<'a> {
    /// Nothing is written yet.
    pub fn new(rt: &'a HostRuntime) -> StdSink<'a> {
        StdSink { rt, faults: 0 }
    }
}

impl Sink for StdSink<'_> {
    ghost gained = { λ _. None };

    ghost faults = { λ o. o.faults };

    fn put(&mut self, bytes: &[u8]) -> Result<usize, Failed> {
        match self.rt.write_some(bytes) {
            Ok(taken) if taken > 0 => Ok(taken),
            _ => Err(fault(&mut self.faults)),
        }
    }
}
