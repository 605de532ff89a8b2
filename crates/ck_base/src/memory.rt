//! The devices in memory: an origin, a target and a sink whose calls fail where their maker says so.
//!
//! The calls of a device are numbered from 0. A count of calls, as one of faults, stops at its last value.

ghost use Rattle.std.specs.Prelude.{◌≡◌, ◌≢◌, ◌+◌, ◌<◌, ◌≤◌, ◌⊎◌, ◌↔◌, ◌++◌, min, true, false, [], length, take, drop, position, Some, IsTrue, IsErr, IfOk, OnOk, OnErr};
ghost use Rattle.std.specs.Str.{bytes_eq};
ghost use Rattle.std.specs.Io.{ReadsAtMost};
ghost use Rattle.std.specs.Io.KnownBytes.{ReadConsumes, WriteAppends};
ghost use Rattle.ck_base.specs.Outside.{Rose, HasCause, PutExtends, fresh, begun, spent, nothing, file, content};
ghost use Rattle.ck_base.specs.Memory.{Calls, next, next_fails, passed, failed, counted, left_from, written_of};

use crate::list::List;
use crate::outside::{Failed, NamedBytes, Origin, Sink, Target};
use crate::text::Text;
use std::alloc::Global;
use std::marker::Model;

/// The calls of a device: which of them fail, how many were made, and how many faults there were.
#[derive(Drop)]
struct CallCounter {
    failing: List<u64>,
    made: u64,
    faults: u64,
}

impl Model for CallCounter {
    ghost use Rattle.ck_base.specs.Memory.{Calls};

    ghost Value = { Calls };

    ghost view = { λ c. record { failing = c.failing; made = c.made; faults = c.faults } };
}

impl CallCounter {
    fn new(failing: List<u64>) -> CallCounter
        ensures { result ≡ record { failing = failing; made = 0; faults = 0 } }
    {
        CallCounter {
            failing,
            made: 0,
            faults: 0,
        }
    }

    /// Counts a call, which fails where its number is among those that fail.
    fn count(&mut self) -> Result<(), Failed>
        ensures fails { IsErr result ↔ IsTrue (next_fails self.old) }
        ensures ok { OnOk result (self.new ≡ passed self.old) }
        ensures err { OnErr result (self.new ≡ failed self.old) }
        ensures cause { HasCause self.old.faults self.new.faults result }
    {
        let fails = self.failing.as_slice().contains(&self.made);
        self.made = self.made.saturating_add(1);
        if fails {
            return Err(self.fault());
        }
        Ok(())
    }

    /// Counts a fault.
    fn fault(&mut self) -> Failed
        ensures counted { self.new ≡ record self.old { faults = next self.old.faults } }
        ensures later { self.old.faults ≤ self.new.faults }
    {
        self.faults = self.faults.saturating_add(1);
        Failed
    }
}

/// Where a reading is: in which file, and how many of its bytes were read.
#[derive(Clone, Copy)]
struct Place {
    file: usize,
    at: usize,
}

/// The number of the first file of that name.
fn number_of(files: &[NamedBytes], name: &str) -> Option<usize>
    ensures { result ≡ position (λ named. bytes_eq named.name name.now) files.now }
{
    files
        .iter()
        .position(|file| file.name.as_bytes() == name.as_bytes())
}

/// The bytes from a place on.
fn bytes_from(files: &[NamedBytes], place: Place) -> &[u8]
    ensures bytes { result.now ≡ left_from files.now (Some place) }
    ensures within { place.at + length result.now ≤ usize.MAX }
{
    let Some(file) = files.get(place.file) else {
        return &[];
    };
    file.bytes.as_slice().get(place.at..).unwrap_or(&[])
}

/// Files in memory. A name means its first entry.
#[derive(Drop)]
pub struct MemOrigin {
    files: List<NamedBytes>,
    place: Option<Place>,
    piece: usize,
    calls: CallCounter,
}

impl Model for MemOrigin {
    ghost use Rattle.std.specs.Prelude.{◌<◌, is_some};
    ghost use Rattle.ck_base.specs.Memory.{OriginState, left_from};

    ghost Value = { OriginState };

    ghost view = { λ o. record { files = o.files; left = left_from o.files o.place; begun = is_some o.place; piece = o.piece; calls = o.calls } };

    ghost invariant = { λ o. 0 < o.piece };
}

impl MemOrigin {
    /// An origin of these files, of which none is open. A read gives at most `piece` bytes, and exactly
    /// the calls whose numbers are in `fail` fail, `begin` and `read` numbered together. It takes no memory.
    pub fn new(files: List<NamedBytes>, piece: usize, fail: List<u64>) -> MemOrigin
        requires { 0 < piece }
        ensures { result ≡ record { files = files; left = []; begun = false; piece = piece; calls = record { failing = fail; made = 0; faults = 0 } } }
    {
        MemOrigin {
            files,
            place: None,
            piece,
            calls: CallCounter::new(fail),
        }
    }
}

impl Origin for MemOrigin {
    ghost files = { λ o. Some o.files };

    ghost left = { λ o. Some o.left };

    ghost is_begun = { λ o. o.begun };

    ghost faults = { λ o. o.calls.faults };

    /// Opens the first file of that name. Fails exactly where the call's number is among those that
    /// fail, which is a fault, or where no file has that name, which is none. No file is open then.
    #[tactic(auto, using(crate::proofs::Files::content_at))]
    fn begin(&mut self, name: &str) -> Result<(), Failed>
        ensures files { self.new.files ≡ self.old.files }
        ensures begun { OnOk result (self.new.begun ≡ true) }
        ensures shut { OnErr result (self.new.begun ≡ false) }
        ensures bytes { OnOk result (content self.old.files name.now ≡ Some self.new.left) }
        ensures later { self.old.calls.faults ≤ self.new.calls.faults }
        ensures cause { OnErr result (Rose self.old.calls.faults self.new.calls.faults ⊎ (content self.old.files name.now ≡ None)) }
        ensures fails { IsErr result ↔ (IsTrue (next_fails self.old.calls) ⊎ (content self.old.files name.now ≡ None)) }
        ensures none { OnErr result (self.new.left ≡ []) }
        ensures state { self.new ≡ record self.old { left = self.new.left; begun = self.new.begun; calls = counted self.old.calls } }
    {
        self.place = None;
        self.calls.count()?;
        let Some(file) = number_of(self.files.as_slice(), name) else {
            return Err(Failed);
        };
        self.place = Some(Place { file, at: 0 });
        Ok(())
    }

    /// Moves the next bytes into `buf`: as many as the least of the origin's piece, the length of `buf`
    /// and the bytes left. Fails exactly where the call's number is among those that fail.
    #[tactic(auto, using(crate::proofs::Files::read_on, crate::proofs::Files::at_end))]
    fn read(&mut self, buf: &mut [u8]) -> Result<usize, Failed>
        requires begun { self.old.begun ≡ true }
        requires room { 0 < length buf.old }
        ensures files { self.new.files ≡ self.old.files }
        ensures begun { self.new.begun ≡ true }
        ensures bound { ReadsAtMost result buf.new }
        ensures bytes { ReadConsumes (Some self.old.left) (Some self.new.left) result buf.new }
        ensures cause { HasCause self.old.calls.faults self.new.calls.faults result }
        ensures fails { IsErr result ↔ IsTrue (next_fails self.old.calls) }
        ensures amount { IfOk result (λ n. n ≡ min self.old.piece (min (length buf.old) (length self.old.left))) }
        ensures filled { IfOk result (λ n. buf.new ≡ take n self.old.left ++ drop n buf.old) }
        ensures ok { IfOk result (λ n. self.new ≡ record self.old { left = drop n self.old.left; calls = passed self.old.calls }) }
        ensures err { OnErr result (self.new ≡ record self.old { calls = failed self.old.calls }) }
        ensures untouched { OnErr result (buf.new ≡ buf.old) }
    {
        self.calls.count()?;
        let Some(place) = self.place else {
            unreachable!()
        };
        let left = bytes_from(self.files.as_slice(), place);
        let n = self.piece.min(buf.len()).min(left.len());
        buf[..n].copy_from_slice(&left[..n]);
        self.place = Some(Place {
            file: place.file,
            at: place.at + n,
        });
        Ok(n)
    }
}

/// How far a target is: nothing was created, its file is open and holds these bytes, or a creation failed.
#[derive(Drop)]
enum Progress {
    Fresh,
    Begun(Text),
    Spent,
}

/// A target in memory, for a file of one name.
#[derive(Drop)]
pub struct MemTarget {
    alloc: Global,
    name: Text,
    progress: Progress,
    piece: usize,
    calls: CallCounter,
}

impl Model for MemTarget {
    ghost use Rattle.std.specs.Prelude.{◌<◌};
    ghost use Rattle.ck_base.specs.Memory.{TargetState, stage_of, bytes_put};

    ghost Value = { TargetState };

    ghost view = { λ t. record { name = t.name; stage = stage_of t.progress; bytes = bytes_put t.progress; piece = t.piece; calls = t.calls } };

    ghost invariant = { λ t. 0 < t.piece };
}

impl MemTarget {
    /// A target that takes `name` alone. A put takes at most `piece` bytes, and exactly the calls whose
    /// numbers are in `fail` fail, `create` and `put` numbered together. It takes no memory.
    pub fn new(alloc: Global, name: Text, piece: usize, fail: List<u64>) -> MemTarget
        requires { 0 < piece }
        ensures { result ≡ record { name = name; stage = fresh; bytes = []; piece = piece; calls = record { failing = fail; made = 0; faults = 0 } } }
    {
        MemTarget {
            alloc,
            name,
            progress: Progress::Fresh,
            piece,
            calls: CallCounter::new(fail),
        }
    }

    /// The bytes that were put, none before a creation. It takes no memory.
    pub fn bytes(&self) -> &[u8]
        ensures { result.now ≡ self.now.bytes }
    {
        match &self.progress {
            Progress::Begun(bytes) => bytes.as_bytes(),
            _ => &[],
        }
    }
}

impl Target for MemTarget {
    ghost takes = { λ t. Some t.name };

    ghost written = { λ t. Some (written_of t) };

    ghost stage = { λ t. t.stage };

    ghost faults = { λ t. t.calls.faults };

    /// Creates the file, empty. Fails exactly where the call's number is among those that fail, which
    /// is a fault, or where the target takes another name, which is none.
    fn create(&mut self, name: &str) -> Result<(), Failed>
        requires { self.old.stage ≡ fresh }
        ensures takes { self.new.name ≡ self.old.name }
        ensures begun { OnOk result (self.new.stage ≡ begun) }
        ensures spent { OnErr result (self.new.stage ≡ spent) }
        ensures created { OnOk result (written_of self.new ≡ file name.now []) }
        ensures none { OnErr result (written_of self.new ≡ nothing) }
        ensures later { self.old.calls.faults ≤ self.new.calls.faults }
        ensures cause { OnErr result (Rose self.old.calls.faults self.new.calls.faults ⊎ (self.old.name ≢ name.now)) }
        ensures fails { IsErr result ↔ (IsTrue (next_fails self.old.calls) ⊎ (self.old.name ≢ name.now)) }
        ensures state { self.new ≡ record self.old { stage = self.new.stage; bytes = []; calls = counted self.old.calls } }
    {
        self.progress = Progress::Spent;
        self.calls.count()?;
        if self.name.as_bytes() != name.as_bytes() {
            return Err(Failed);
        }
        self.progress = Progress::Begun(Text::new(self.alloc));
        Ok(())
    }

    /// Adds the first bytes of the piece that is offered: as many as the lesser of the target's piece
    /// and the length of what is offered. Fails where the call's number is among those that fail, and
    /// else only for want of memory. Each of the two is a fault.
    fn put(&mut self, bytes: &[u8]) -> Result<usize, Failed>
        requires begun { self.old.stage ≡ begun }
        requires piece { 0 < length bytes.now }
        ensures takes { self.new.name ≡ self.old.name }
        ensures begun { self.new.stage ≡ begun }
        ensures bound { IfOk result (λ taken. (0 < taken) × (taken ≤ length bytes.now)) }
        ensures bytes { PutExtends (Some (written_of self.old)) (Some (written_of self.new)) result bytes.now }
        ensures cause { HasCause self.old.calls.faults self.new.calls.faults result }
        ensures fails { IsTrue (next_fails self.old.calls) → IsErr result }
        ensures amount { IfOk result (λ taken. taken ≡ min self.old.piece (length bytes.now)) }
        ensures ok { IfOk result (λ taken. self.new ≡ record self.old { bytes = self.old.bytes ++ take taken bytes.now; calls = passed self.old.calls }) }
        ensures err { OnErr result (self.new ≡ record self.old { calls = failed self.old.calls }) }
    {
        self.calls.count()?;
        let Progress::Begun(all) = &mut self.progress else {
            unreachable!()
        };
        let taken = self.piece.min(bytes.len());
        if all.append(&bytes[..taken]).is_err() {
            return Err(self.calls.fault());
        }
        Ok(taken)
    }
}

/// A sink in memory.
#[derive(Drop)]
pub struct MemSink {
    bytes: Text,
    piece: usize,
    calls: CallCounter,
}

impl Model for MemSink {
    ghost use Rattle.std.specs.Prelude.{◌<◌};
    ghost use Rattle.ck_base.specs.Memory.{SinkState};

    ghost Value = { SinkState };

    ghost view = { λ s. record { bytes = s.bytes; piece = s.piece; calls = s.calls } };

    ghost invariant = { λ s. 0 < s.piece };
}

impl MemSink {
    /// A sink that holds nothing. A put takes at most `piece` bytes, and exactly the calls whose numbers
    /// are in `fail` fail. It takes no memory.
    pub fn new(alloc: Global, piece: usize, fail: List<u64>) -> MemSink
        requires { 0 < piece }
        ensures { result ≡ record { bytes = []; piece = piece; calls = record { failing = fail; made = 0; faults = 0 } } }
    {
        MemSink {
            bytes: Text::new(alloc),
            piece,
            calls: CallCounter::new(fail),
        }
    }

    /// The bytes that were put. It takes no memory.
    pub fn bytes(&self) -> &[u8]
        ensures { result.now ≡ self.now.bytes }
    {
        self.bytes.as_bytes()
    }
}

impl Sink for MemSink {
    ghost gained = { λ s. Some s.bytes };

    ghost faults = { λ s. s.calls.faults };

    /// Adds the first bytes of the piece that is offered: as many as the lesser of the sink's piece and
    /// the length of what is offered. Fails where the call's number is among those that fail, and else
    /// only for want of memory. Each of the two is a fault.
    fn put(&mut self, bytes: &[u8]) -> Result<usize, Failed>
        requires { 0 < length bytes.now }
        ensures bound { IfOk result (λ taken. (0 < taken) × (taken ≤ length bytes.now)) }
        ensures bytes { WriteAppends (Some self.old.bytes) (Some self.new.bytes) result bytes.now }
        ensures cause { HasCause self.old.calls.faults self.new.calls.faults result }
        ensures fails { IsTrue (next_fails self.old.calls) → IsErr result }
        ensures amount { IfOk result (λ taken. taken ≡ min self.old.piece (length bytes.now)) }
        ensures ok { IfOk result (λ taken. self.new ≡ record self.old { bytes = self.old.bytes ++ take taken bytes.now; calls = passed self.old.calls }) }
        ensures err { OnErr result (self.new ≡ record self.old { calls = failed self.old.calls }) }
    {
        self.calls.count()?;
        let taken = self.piece.min(bytes.len());
        if self.bytes.append(&bytes[..taken]).is_err() {
            return Err(self.calls.fault());
        }
        Ok(taken)
    }
}
