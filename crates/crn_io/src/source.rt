//! Sources: in memory, and one over a reader of the system, and how all of the bytes are read.

ghost use Rattle.std.specs.Prelude.{ℕ, List, Option, Some, None, ◌≡◌, ◌+◌, ◌-◌, ◌^◌, ◌<◌, ◌≤◌, ◌↔◌, length, vec_len, IfOk, IsOkAnd, OnOk, OnErr, IsErrOf, min, take, ⊤};
ghost use Rattle.std.specs.Io.{ReadsAtMost};
ghost use Rattle.std.specs.Io.KnownBytes.{ReadConsumes, Consumes, IsAtEnd};
ghost use Rattle.crn_io.specs.Causes.{HasCause, CountsNothing, raised, once_more};
ghost use Rattle.crn_io.specs.Memory.{supply_of, IsListed, WasListed, after_read, after_read_fault};
ghost use Rattle.crn_io.specs.Moved.{ConsumesSome};

use std::alloc::{AllocError, Global};
use std::io::Read;
use std::marker::Model;
use thiserror::Error;

/// A read or a write that did not succeed.
#[derive(Clone, Copy, Debug, PartialEq, Eq, Error)]
#[error("the call failed")]
pub struct Failed;

/// Where bytes come from. A source counts its faults, and nothing else, in a count that stays at the greatest `u64`.
pub trait Source {
    /// The bytes that are left, where the source tells them.
    ghost left: { Self → Option (List ℕ) };

    /// How many faults there were.
    ghost faults: { Self → ℕ };

    /// That the last call failed, where the source tells it.
    ghost just_failed: { Self → Type 0 } = { λ _. ⊤ };

    /// How many calls there were, where the source tells it.
    ghost calls: { Self → ℕ } = { λ _. 0 };

    /// How many calls gave no byte, at the end or by a failure, where the source tells it. The count stays at the greatest `u64`.
    ghost nothing: { Self → Option ℕ } = { λ _. None };

    /// Takes the next bytes into the front of `buf`, and says how many. `Ok(0)` means the end. A call that fails takes none.
    fn read(&mut self, buf: &mut [u8]) -> Result<usize, Failed>
        requires { 0 < length buf.old }
        ensures bound { ReadsAtMost result buf.new }
        ensures bytes { ReadConsumes (left self.old) (left self.new) result buf.new }
        ensures cause { HasCause (faults self.old) (faults self.new) result }
        ensures last { OnErr result (just_failed self.new) }
        ensures one { calls self.new ≤ calls self.old + 1 }
        ensures nothing { CountsNothing (nothing self.old) (nothing self.new) result };
}

// Copies as many bytes as there is room for, and at most `most`.
fn copy_front(from: &[u8], to: &mut [u8], most: usize) -> usize
    ensures count { result ≡ min (length from.now) (min most (length to.old)) }
    ensures copied { take result to.new ≡ take result from.now }
{
    let count = from.len().min(most.min(to.len()));
    to[..count].copy_from_slice(&from[..count]);
    count
}

/// A source over bytes in memory, which never fails.
#[derive(Debug, Drop)]
pub struct PlainSource {
    bytes: Vec<u8>,
    at: usize,
}

impl Model for PlainSource {
    ghost use Rattle.std.specs.Prelude.{ℕ, List, drop, ◌≤◌, vec_len};

    ghost Value = { List ℕ };

    ghost view = { λ s. drop s.at s.bytes.items };

    ghost invariant = { λ s. s.at ≤ vec_len s.bytes };
}

impl PlainSource {
    /// A source of these bytes.
    pub fn new(bytes: Vec<u8>) -> PlainSource
        ensures { result ≡ bytes.items }
    {
        PlainSource { bytes, at: 0 }
    }
}

impl Source for PlainSource {
    ghost left = { λ bytes. Some bytes };

    ghost faults = { λ _. 0 };

    ghost just_failed = { λ _. ⊥ };

    fn read(&mut self, buf: &mut [u8]) -> Result<usize, Failed>
        requires { 0 < length buf.old }
        ensures bound { ReadsAtMost result buf.new }
        ensures bytes { ReadConsumes (Some self.old) (Some self.new) result buf.new }
        ensures cause { HasCause 0 0 result }
        ensures last { OnErr result ⊥ }
        ensures nothing { CountsNothing None None result }
        ensures count { IsOkAnd result (λ n. n ≡ min (length self.old) (length buf.old)) }
    {
        let count = copy_front(&self.bytes[self.at..], buf, usize::MAX);
        self.at += count;
        Ok(count)
    }
}

/// A source over bytes in memory that gives at most `step` bytes a call, and fails at the calls whose numbers are listed. The first call is number 1.
#[derive(Debug, Drop)]
pub struct MemSource {
    bytes: Vec<u8>,
    at: usize,
    step: usize,
    fails: Vec<u64>,
    calls: u64,
    faults: u64,
    nothing: u64,
}

impl Model for MemSource {
    ghost use Rattle.std.specs.Prelude.{drop, ◌≤◌, vec_len};
    ghost use Rattle.crn_io.specs.Memory.{Supply};

    ghost Value = { Supply };

    ghost view = { λ s. record { left = drop s.at s.bytes.items; step = s.step; fails = s.fails.items; calls = s.calls; faults = s.faults; nothing = s.nothing } };

    ghost invariant = { λ s. (s.at ≤ vec_len s.bytes) × (1 ≤ s.step) };
}

impl MemSource {
    /// A source of these bytes, of which no call was made.
    pub fn new(bytes: Vec<u8>, step: usize, fails: Vec<u64>) -> MemSource
        requires { 1 ≤ step }
        ensures { result ≡ supply_of bytes.items step fails.items }
    {
        MemSource {
            bytes,
            at: 0,
            step,
            fails,
            calls: 0,
            faults: 0,
            nothing: 0,
        }
    }

    /// How many calls failed.
    pub fn faults(&self) -> u64
        ensures { result ≡ self.now.faults }
    {
        self.faults
    }
}

impl Source for MemSource {
    ghost left = { λ s. Some s.left };

    ghost faults = { λ s. s.faults };

    ghost just_failed = { λ s. WasListed s.fails s.calls };

    ghost calls = { λ s. s.calls };

    ghost nothing = { λ s. Some s.nothing };

    fn read(&mut self, buf: &mut [u8]) -> Result<usize, Failed>
        requires { 0 < length buf.old }
        ensures bound { ReadsAtMost result buf.new }
        ensures bytes { ReadConsumes (Some self.old.left) (Some self.new.left) result buf.new }
        ensures cause { HasCause self.old.faults self.new.faults result }
        ensures last { OnErr result (WasListed self.new.fails self.new.calls) }
        ensures one { self.new.calls ≤ self.old.calls + 1 }
        ensures nothing { CountsNothing (Some self.old.nothing) (Some self.new.nothing) result }
        ensures fails { OnErr result (IsListed self.old.fails self.old.calls) }
        ensures serves { OnOk result (¬ IsListed self.old.fails self.old.calls) }
        ensures count { IfOk result (λ n. n ≡ min (length self.old.left) (min self.old.step (length buf.old))) }
        ensures ok { IfOk result (λ n. self.new ≡ after_read self.old n) }
        ensures err { OnErr result (self.new ≡ after_read_fault self.old) }
    {
        self.calls = self.calls.saturating_add(1);
        if self.fails.contains(&self.calls) {
            self.faults = self.faults.saturating_add(1);
            self.nothing = self.nothing.saturating_add(1);
            return Err(Failed);
        }
        let count = copy_front(&self.bytes[self.at..], buf, self.step);
        if count == 0 {
            self.nothing = self.nothing.saturating_add(1);
        }
        self.at += count;
        Ok(count)
    }
}

/// A source over a reader of the system. It tells no bytes, and counts each error of the reader.
#[derive(Drop)]
pub struct StdSource<R: Read + Drop> {
    reader: R,
    faults: u64,
}

impl<R: Read + Drop> Model for StdSource<R> {
    ghost use Rattle.crn_io.specs.System.{Adapter};

    ghost Value = { Adapter };

    ghost view = { λ s. record { known = R.remaining s.reader; faults = s.faults } };
}

impl<R: Read + Drop> StdSource<R> {
    /// A source that reads from `reader`, with no fault so far.
    pub fn new(reader: R) -> StdSource<R>
        ensures { result ≡ record { known = R.remaining reader; faults = 0 } }
    {
        StdSource { reader, faults: 0 }
    }
}

impl<R: Read + Drop> Source for StdSource<R> {
    ghost left = { λ _. None };

    ghost faults = { λ s. s.faults };

    fn read(&mut self, buf: &mut [u8]) -> Result<usize, Failed>
        requires { 0 < length buf.old }
        ensures bound { ReadsAtMost result buf.new }
        ensures bytes { ReadConsumes None None result buf.new }
        ensures cause { HasCause self.old.faults self.new.faults result }
        ensures last { OnErr result ⊤ }
        ensures nothing { CountsNothing None None result }
        ensures hands_on { ReadConsumes self.old.known self.new.known result buf.new }
        ensures ok { OnOk result (self.new.faults ≡ self.old.faults) }
        ensures err { OnErr result (self.new.faults ≡ raised self.old.faults) }
    {
        match self.reader.read(buf) {
            Ok(count) => Ok(count),
            Err(_) => {
                self.faults = self.faults.saturating_add(1);
                Err(Failed)
            }
        }
    }
}

/// Why not all bytes up to the end were taken.
#[derive(Clone, Copy, Debug, PartialEq, Eq, Error)]
pub enum ReadAllError {
    /// A call of the source failed.
    #[error("a read failed")]
    Fault,
    /// More bytes came than the limit allows.
    #[error("there are too many bytes")]
    TooLong,
    /// There is no memory for the bytes.
    #[error("out of memory")]
    Memory,
}

impl From<AllocError> for ReadAllError {
    ghost use Rattle.crn_io.specs.declared.source.ReadAllError.TheVariants.{Memory};

    ghost from_gives = { λ _ e. e ≡ Memory };

    fn from(_e: AllocError) -> ReadAllError {
        ReadAllError::Memory
    }
}

// How many bytes one call asks for at most.
const BLOCK: usize = 4096;

/// All the bytes up to the end, where there are at most `limit`. It takes at most one byte more, and what it took before a refusal stays taken. A call that fails is the last,
/// and so is the one that finds the end: each before it took a byte at least.
pub fn read_all<S: Source>(
    alloc: Global,
    source: &mut S,
    limit: usize,
) -> Result<Vec<u8>, ReadAllError>
    requires { limit < usize.MAX }
    ensures ok { IfOk result (λ v. Consumes (S.left source.old) (S.left source.new) v.items) }
    ensures end { OnOk result (IsAtEnd (S.left source.new)) }
    ensures calls { IfOk result (λ v. S.calls source.new ≤ S.calls source.old + vec_len v + 1) }
    ensures within { IfOk result (λ v. vec_len v ≤ limit) }
    ensures too_long { IsErrOf result ReadAllError.TooLong → ConsumesSome (S.left source.old) (S.left source.new) (λ n. n ≡ limit + 1) }
    ensures fault { IsErrOf result ReadAllError.Fault → S.faults source.new ≡ raised (S.faults source.old) }
    ensures last { IsErrOf result ReadAllError.Fault → S.just_failed source.new }
    ensures fault_within { IsErrOf result ReadAllError.Fault → ConsumesSome (S.left source.old) (S.left source.new) (λ n. n ≤ limit) }
    ensures memory { IsErrOf result ReadAllError.Memory → ConsumesSome (S.left source.old) (S.left source.new) (λ n. n ≤ limit) }
    ensures later { S.faults source.old ≤ S.faults source.new }
    ensures nothing_ok { OnOk result (S.nothing source.new ≡ once_more (S.nothing source.old)) }
    ensures nothing_fault { IsErrOf result ReadAllError.Fault → S.nothing source.new ≡ once_more (S.nothing source.old) }
    ensures nothing_too_long { IsErrOf result ReadAllError.TooLong → S.nothing source.new ≡ S.nothing source.old }
    ensures nothing_memory { IsErrOf result ReadAllError.Memory → S.nothing source.new ≡ S.nothing source.old }
    ensures no_fault { ¬ IsErrOf result ReadAllError.Fault → S.faults source.new ≡ S.faults source.old }
{
    let mut bytes = Vec::new(alloc);
    let mut block = [0u8; BLOCK];
    'turns: loop {
        let room = (limit + 1 - bytes.len()).min(BLOCK);
        match source.read(&mut block[..room]) {
            Ok(0) => return Ok(bytes),
            Ok(count) if count > limit - bytes.len() => return Err(ReadAllError::TooLong),
            Ok(count) => bytes.extend_from_slice(&block[..count])?,
            Err(Failed) => return Err(ReadAllError::Fault),
        }
    }
}
