ghost use Rattle.std.specs.Prelude.{◌≡◌, ℕ, ◌-◌, ◌<◌, ◌≤◌, ◌↔◌, List, [], length, min, take, drop, vec_len, vec_capacity, Some, IsOk, IsErr, IfOk, OnOk, OnErr};
ghost use Rattle.std.specs.Io.{ReadsAtMost, WritesAtMost};
ghost use Rattle.std.specs.Io.KnownBytes.{ReadConsumes, WriteAppends, Keeps};
ghost use Rattle.ras_edges.specs.Faults.{Rose, one_more};
ghost use Rattle.ras_edges.specs.Sink.{IsFlushed};

use crate::sink::Sink;
use crate::source::{Failed, Source};
use std::alloc::{AllocError, Global};

/// A source over bytes in memory, which never fails.
#[derive(Debug, Drop)]
pub struct MemorySource {
    bytes: Vec<u8>,
    at: usize,
    step: usize,
    ghost within: { at ≤ vec_len bytes },
    ghost moves: { 0 < step },
}

impl MemorySource {
    ghost use Rattle.ras_edges.specs.Memory.{left_of, step_of};

    /// A source that gives `bytes`, at most `step` of them a read.
    pub fn new(bytes: Vec<u8>, step: usize) -> MemorySource
        requires { 0 < step }
        ensures bytes { left_of result ≡ bytes.items }
        ensures step { step_of result ≡ step }
    {
        MemorySource { bytes, at: 0, step }
    }
}

impl Source for MemorySource {
    ghost use Rattle.ras_edges.specs.Memory.{left_of, step_of};

    ghost left = { λ s. Some (left_of s) };

    ghost faults = { λ _. 0 };

    fn read(&mut self, into: &mut [u8]) -> Result<usize, Failed>
        ensures count { ReadsAtMost result into.new }
        ensures bytes { ReadConsumes (Some (left_of self.old)) (Some (left_of self.new)) result into.new }

        ensures never_fails { IsOk result }
        ensures by_steps { IfOk result (λ n.
            n ≡ min (step_of self.old) (min (length into.old) (length (left_of self.old)))) }
        ensures rest { IfOk result (λ n. drop n into.new ≡ drop n into.old) }
        ensures step { step_of self.new ≡ step_of self.old }
    {
        let left = &self.bytes[self.at..];
        let n = self.step.min(into.len()).min(left.len());
        into[..n].copy_from_slice(&left[..n]);
        self.at += n;
        Ok(n)
    }
}

/// A sink in memory with room for a fixed number of bytes. A write that finds none left fails.
#[derive(Debug, Drop)]
pub struct MemorySink {
    bytes: Vec<u8>,
    room: usize,
    flushed: usize,
    faults: u64,
    ghost has_room: { room ≤ vec_capacity bytes },
    ghost fits: { vec_len bytes ≤ room },
}

impl MemorySink {
    ghost use Rattle.ras_edges.specs.Memory.{taken_of, flushed_of, faults_of, room_of};

    /// An empty sink that takes up to `room` bytes. The error is want of memory.
    pub fn with_room(alloc: Global, room: usize) -> Result<MemorySink, AllocError>
        ensures empty { IfOk result (λ sink. taken_of sink ≡ []) }
        ensures unflushed { IfOk result (λ sink. flushed_of sink ≡ 0) }
        ensures no_fault { IfOk result (λ sink. faults_of sink ≡ 0) }
        ensures room { IfOk result (λ sink. room_of sink ≡ room) }
    {
        Ok(MemorySink {
            bytes: Vec::with_capacity(alloc, room)?,
            room,
            flushed: 0,
            faults: 0,
        })
    }

    /// The bytes taken.
    pub fn bytes(&self) -> &[u8]
        ensures { result.now ≡ taken_of self.now }
    {
        self.bytes.as_slice()
    }
}

impl Sink for MemorySink {
    ghost use Rattle.ras_edges.specs.Memory.{taken_of, flushed_of, faults_of, room_of};

    ghost taken = { λ s. Some (taken_of s) };

    ghost flushed = { λ s. Some (flushed_of s) };

    ghost faults = { faults_of };

    fn write(&mut self, piece: &[u8]) -> Result<usize, Failed>
        ensures count { WritesAtMost result piece.now }
        ensures some { IfOk result (λ n. 0 < length piece.now → 0 < n) }
        ensures bytes { WriteAppends (Some (taken_of self.old)) (Some (taken_of self.new)) result piece.now }
        ensures flushed_stay { Some (flushed_of self.new) ≡ Some (flushed_of self.old) }
        ensures faults_stay { faults_of self.old ≤ faults_of self.new }
        ensures has_cause { OnErr result (Rose (faults_of self.old) (faults_of self.new)) }

        ensures what_fits { IfOk result (λ n.
            n ≡ min (length piece.now) (room_of self.old - length (taken_of self.old))) }
        ensures full { OnErr result ((0 < length piece.now) × (length (taken_of self.old) ≡ room_of self.old)) }
        ensures no_fault { OnOk result (faults_of self.new ≡ faults_of self.old) }
        ensures one_fault { OnErr result (faults_of self.new ≡ one_more (faults_of self.old)) }
        ensures room { room_of self.new ≡ room_of self.old }
    {
        let n = piece.len().min(self.room - self.bytes.len());
        if n == 0 && !piece.is_empty() {
            self.faults = self.faults.saturating_add(1);
            return Err(Failed);
        }
        match self.bytes.extend_from_slice(&piece[..n]) {
            Ok(()) => Ok(n),
            Err(AllocError) => unreachable!(),
        }
    }

    fn flush(&mut self) -> Result<(), Failed>
        ensures bytes { Keeps (Some (taken_of self.old)) (Some (taken_of self.new)) }
        ensures all { OnOk result (IsFlushed (Some (taken_of self.new)) (Some (flushed_of self.new))) }
        ensures failed_stays { OnErr result (Some (flushed_of self.new) ≡ Some (flushed_of self.old)) }
        ensures faults_stay { faults_of self.old ≤ faults_of self.new }
        ensures has_cause { OnErr result (Rose (faults_of self.old) (faults_of self.new)) }

        ensures never_fails { IsOk result }
        ensures no_fault { faults_of self.new ≡ faults_of self.old }
        ensures room { room_of self.new ≡ room_of self.old }
    {
        self.flushed = self.bytes.len();
        Ok(())
    }
}
