//! Objects in memory that fail at the calls that a test lists.
ghost use Rattle.std.specs.Prelude.{◌≡◌, ℕ, ◌-◌, ◌<◌, ◌≤◌, ◌↔◌, List, [], length, min, Contains, Some, IsTrue, ◌⊎◌, IsErr, IsOk, IfOk, OnOk, OnErr};
ghost use Rattle.std.specs.Io.{ReadsAtMost, WritesAtMost};
ghost use Rattle.std.specs.Io.KnownBytes.{ReadConsumes, WriteAppends, Keeps};
ghost use Rattle.ras_edges.specs.Faults.{Rose, one_more};
ghost use Rattle.ras_edges.specs.Sink.{IsFlushed};
ghost use Rattle.ras_edges.specs.Memory.{left_of, step_of, taken_of, flushed_of, room_of};

use crate::memory::{MemorySink, MemorySource};
use crate::sink::Sink;
use crate::source::{Failed, Source};
use std::alloc::{AllocError, Global};

/// The calls of an object: how many were made, how many failed, and which ones are to fail.
#[derive(Debug, Drop)]
struct Calls {
    made: u64,
    failed: u64,
    failing: Vec<u32>,
}

impl Calls {
    fn new(failing: Vec<u32>) -> Calls
        ensures made { result.made ≡ 0 }
        ensures failed { result.failed ≡ 0 }
        ensures failing { result.failing.items ≡ failing.items }
    {
        Calls {
            made: 0,
            failed: 0,
            failing,
        }
    }

    /// Counts a call, and answers whether it is to fail.
    fn next_fails(&mut self) -> bool
        ensures listed { IsTrue result ↔ Contains self.old.failing.items (one_more self.old.made) }
        ensures made { self.new.made ≡ one_more self.old.made }
        ensures failed { self.new.failed ≡ self.old.failed }
        ensures failing { self.new.failing.items ≡ self.old.failing.items }
    {
        let call = self.made.saturating_add(1);
        self.made = call;
        self.failing.iter().any(|listed| u64::from(*listed) == call)
    }

    /// Counts a fault.
    fn fail(&mut self) -> Failed
        ensures made { self.new.made ≡ self.old.made }
        ensures failed { self.new.failed ≡ one_more self.old.failed }
        ensures later { self.old.failed ≤ self.new.failed }
        ensures failing { self.new.failing.items ≡ self.old.failing.items }
    {
        self.failed = self.failed.saturating_add(1);
        Failed
    }
}

/// A source over bytes in memory that fails at the listed reads, counted from 1.
#[derive(Debug, Drop)]
pub struct FailingSource {
    inner: MemorySource,
    calls: Calls,
}

impl FailingSource {
    ghost use Rattle.ras_edges.specs.Failing.{source_of, reads_made, failing_reads, failed_reads};

    /// A source that gives `bytes`, at most `step` of them a read, and fails at the reads listed.
    pub fn new(bytes: Vec<u8>, step: usize, failing: Vec<u32>) -> FailingSource
        requires { 0 < step }
        ensures bytes { left_of (source_of result) ≡ bytes.items }
        ensures step { step_of (source_of result) ≡ step }
        ensures failing { failing_reads result ≡ failing.items }
        ensures none_made { reads_made result ≡ 0 }
        ensures none_failed { failed_reads result ≡ 0 }
    {
        FailingSource {
            inner: MemorySource::new(bytes, step),
            calls: Calls::new(failing),
        }
    }
}

impl Source for FailingSource {
    ghost use Rattle.ras_edges.specs.Failing.{source_of, reads_made, failing_reads, failed_reads};

    ghost left = { λ s. Some (left_of (source_of s)) };

    ghost faults = { failed_reads };

    fn read(&mut self, into: &mut [u8]) -> Result<usize, Failed>
        ensures count { ReadsAtMost result into.new }
        ensures bytes { ReadConsumes (Some (left_of (source_of self.old))) (Some (left_of (source_of self.new))) result into.new }
        ensures faults_stay { failed_reads self.old ≤ failed_reads self.new }
        ensures has_cause { OnErr result (Rose (failed_reads self.old) (failed_reads self.new)) }

        ensures as_listed { IsErr result ↔ Contains (failing_reads self.old) (one_more (reads_made self.old)) }
        ensures by_steps { IfOk result (λ n.
            n ≡ min (step_of (source_of self.old)) (min (length into.old) (length (left_of (source_of self.old))))) }
        ensures made { reads_made self.new ≡ one_more (reads_made self.old) }
        ensures no_fault { OnOk result (failed_reads self.new ≡ failed_reads self.old) }
        ensures one_fault { OnErr result (failed_reads self.new ≡ one_more (failed_reads self.old)) }
        ensures failing { failing_reads self.new ≡ failing_reads self.old }
        ensures step { step_of (source_of self.new) ≡ step_of (source_of self.old) }
    {
        if self.calls.next_fails() {
            Err(self.calls.fail())
        } else {
            self.inner.read(into)
        }
    }
}

/// A sink in memory that fails at the listed calls of `write` and `flush`, counted together from 1,
/// and at a write that finds no room.
#[derive(Debug, Drop)]
pub struct FailingSink {
    inner: MemorySink,
    calls: Calls,
}

impl FailingSink {
    ghost use Rattle.ras_edges.specs.Failing.{sink_of, calls_made, failing_calls, failed_calls};

    /// An empty sink that takes up to `room` bytes and fails at the calls listed. The error is want
    /// of memory.
    pub fn with_room(
        alloc: Global,
        room: usize,
        failing: Vec<u32>,
    ) -> Result<FailingSink, AllocError>
        ensures empty { IfOk result (λ sink. taken_of (sink_of sink) ≡ []) }
        ensures unflushed { IfOk result (λ sink. flushed_of (sink_of sink) ≡ 0) }
        ensures room { IfOk result (λ sink. room_of (sink_of sink) ≡ room) }
        ensures failing { IfOk result (λ sink. failing_calls sink ≡ failing.items) }
        ensures none_made { IfOk result (λ sink. calls_made sink ≡ 0) }
        ensures none_failed { IfOk result (λ sink. failed_calls sink ≡ 0) }
    {
        Ok(FailingSink {
            inner: MemorySink::with_room(alloc, room)?,
            calls: Calls::new(failing),
        })
    }

    /// The bytes taken.
    pub fn bytes(&self) -> &[u8]
        ensures { result.now ≡ taken_of (sink_of self.now) }
    {
        self.inner.bytes()
    }
}

impl Sink for FailingSink {
    ghost use Rattle.ras_edges.specs.Failing.{sink_of, calls_made, failing_calls, failed_calls};

    ghost taken = { λ s. Some (taken_of (sink_of s)) };

    ghost flushed = { λ s. Some (flushed_of (sink_of s)) };

    ghost faults = { failed_calls };

    fn write(&mut self, piece: &[u8]) -> Result<usize, Failed>
        ensures count { WritesAtMost result piece.now }
        ensures some { IfOk result (λ n. 0 < length piece.now → 0 < n) }
        ensures bytes { WriteAppends (Some (taken_of (sink_of self.old))) (Some (taken_of (sink_of self.new))) result piece.now }
        ensures flushed_stay { Some (flushed_of (sink_of self.new)) ≡ Some (flushed_of (sink_of self.old)) }
        ensures faults_stay { failed_calls self.old ≤ failed_calls self.new }
        ensures has_cause { OnErr result (Rose (failed_calls self.old) (failed_calls self.new)) }

        ensures listed { Contains (failing_calls self.old) (one_more (calls_made self.old)) → IsErr result }
        ensures why { OnErr result (Contains (failing_calls self.old) (one_more (calls_made self.old))
            ⊎ ((0 < length piece.now) × (length (taken_of (sink_of self.old)) ≡ room_of (sink_of self.old)))) }
        ensures what_fits { IfOk result (λ n.
            n ≡ min (length piece.now) (room_of (sink_of self.old) - length (taken_of (sink_of self.old)))) }
        ensures made { calls_made self.new ≡ one_more (calls_made self.old) }
        ensures no_fault { OnOk result (failed_calls self.new ≡ failed_calls self.old) }
        ensures one_fault { OnErr result (failed_calls self.new ≡ one_more (failed_calls self.old)) }
        ensures failing { failing_calls self.new ≡ failing_calls self.old }
        ensures room { room_of (sink_of self.new) ≡ room_of (sink_of self.old) }
    {
        if self.calls.next_fails() {
            return Err(self.calls.fail());
        }
        match self.inner.write(piece) {
            Ok(n) => Ok(n),
            Err(_) => Err(self.calls.fail()),
        }
    }

    fn flush(&mut self) -> Result<(), Failed>
        ensures bytes { Keeps (Some (taken_of (sink_of self.old))) (Some (taken_of (sink_of self.new))) }
        ensures all { OnOk result (IsFlushed (Some (taken_of (sink_of self.new))) (Some (flushed_of (sink_of self.new)))) }
        ensures failed_stays { OnErr result (Some (flushed_of (sink_of self.new)) ≡ Some (flushed_of (sink_of self.old))) }
        ensures faults_stay { failed_calls self.old ≤ failed_calls self.new }
        ensures has_cause { OnErr result (Rose (failed_calls self.old) (failed_calls self.new)) }

        ensures as_listed { IsErr result ↔ Contains (failing_calls self.old) (one_more (calls_made self.old)) }
        ensures made { calls_made self.new ≡ one_more (calls_made self.old) }
        ensures no_fault { OnOk result (failed_calls self.new ≡ failed_calls self.old) }
        ensures one_fault { OnErr result (failed_calls self.new ≡ one_more (failed_calls self.old)) }
        ensures failing { failing_calls self.new ≡ failing_calls self.old }
        ensures room { room_of (sink_of self.new) ≡ room_of (sink_of self.old) }
    {
        if self.calls.next_fails() {
            return Err(self.calls.fail());
        }
        self.inner.flush()
    }
}
