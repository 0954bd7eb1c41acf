//! A sink over any writer of the library.
ghost use Rattle.std.specs.Prelude.{◌≡◌, ◌-◌, ◌≤◌, ◌<◌, [], length, min, take, OnOk, OnErr, IfOk};
ghost use Rattle.std.specs.Io.{WritesAtMost};
ghost use Rattle.std.specs.Io.KnownBytes.{Appends, WriteAppends, Keeps};
ghost use Rattle.arrayvec.specs.ArrayVec.{array_vec_len};
ghost use Rattle.ras_edges.specs.Faults.{Rose, one_more};
ghost use Rattle.ras_edges.specs.Sink.{IsFlushed};

use crate::sink::Sink;
use crate::source::Failed;
use arrayvec::ArrayVec;
use std::io::Write;

/// How many bytes are gathered before they are written.
const GATHERED: usize = 4096;

/// A sink over a writer. It gathers what it takes, so that small pieces make few writes. Its count
/// rises at each error. What is gathered and not flushed is lost where the sink is let go.
#[derive(Drop)]
pub struct GatheringSink<W> {
    writer: W,
    gathered: ArrayVec<u8, GATHERED>,
    written: usize,
    faults: u64,
    ghost within: { written ≤ array_vec_len gathered },
}

impl<W: Write> GatheringSink<W> {
    ghost use Rattle.ras_edges.specs.Gathering.{taken_by, gathered_in, faults_in};

    /// A sink that has taken nothing yet.
    pub fn over(writer: W) -> GatheringSink<W>
        ensures bytes { Keeps (W.contents writer) (taken_by W.contents result) }
        ensures none_gathered { gathered_in result ≡ [] }
        ensures no_fault { faults_in result ≡ 0 }
    {
        GatheringSink {
            writer,
            gathered: ArrayVec::new(),
            written: 0,
            faults: 0,
        }
    }

    /// Writes what was gathered. Where that fails, the rest stays gathered.
    fn send(&mut self) -> Result<(), Failed>
        ensures bytes { Keeps (taken_by W.contents self.old) (taken_by W.contents self.new) }
        ensures empty { OnOk result (self.new.gathered.items ≡ []) }
        ensures no_fault { OnOk result (self.new.faults ≡ self.old.faults) }
        ensures one_fault { OnErr result (self.new.faults ≡ one_more self.old.faults) }
        ensures later { self.old.faults ≤ self.new.faults }
    {
        self.written += write_out(&mut self.writer, &self.gathered[self.written..]);
        if self.written < self.gathered.len() {
            return Err(self.fail());
        }
        self.gathered.clear();
        self.written = 0;
        Ok(())
    }

    /// Counts a fault.
    fn fail(&mut self) -> Failed
        ensures bytes { Keeps (taken_by W.contents self.old) (taken_by W.contents self.new) }
        ensures counted { self.new.faults ≡ one_more self.old.faults }
        ensures later { self.old.faults ≤ self.new.faults }
    {
        self.faults = self.faults.saturating_add(1);
        Failed
    }
}

impl<W: Write> Sink for GatheringSink<W> {
    ghost use Rattle.ras_edges.specs.Gathering.{taken_by, gathered_in, flushed_by, faults_in};

    ghost taken = { taken_by W.contents };

    ghost flushed = { flushed_by };

    ghost faults = { faults_in };

    fn write(&mut self, piece: &[u8]) -> Result<usize, Failed>
        ensures count { WritesAtMost result piece.now }
        ensures some { IfOk result (λ n. 0 < length piece.now → 0 < n) }
        ensures bytes { WriteAppends (taken_by W.contents self.old) (taken_by W.contents self.new) result piece.now }
        ensures flushed_stay { flushed_by self.new ≡ flushed_by self.old }
        ensures faults_stay { faults_in self.old ≤ faults_in self.new }
        ensures has_cause { OnErr result (Rose (faults_in self.old) (faults_in self.new)) }

        ensures no_fault { OnOk result (faults_in self.new ≡ faults_in self.old) }
        ensures one_fault { OnErr result (faults_in self.new ≡ one_more (faults_in self.old)) }
    {
        if self.gathered.is_full() {
            self.send()?;
        }
        let n = piece.len().min(self.gathered.remaining_capacity());
        match self.gathered.try_extend_from_slice(&piece[..n]) {
            Ok(()) => Ok(n),
            Err(_) => unreachable!(),
        }
    }

    fn flush(&mut self) -> Result<(), Failed>
        ensures bytes { Keeps (taken_by W.contents self.old) (taken_by W.contents self.new) }
        ensures all { OnOk result (IsFlushed (taken_by W.contents self.new) (flushed_by self.new)) }
        ensures failed_stays { OnErr result (flushed_by self.new ≡ flushed_by self.old) }
        ensures faults_stay { faults_in self.old ≤ faults_in self.new }
        ensures has_cause { OnErr result (Rose (faults_in self.old) (faults_in self.new)) }

        ensures none_gathered { OnOk result (gathered_in self.new ≡ []) }
        ensures no_fault { OnOk result (faults_in self.new ≡ faults_in self.old) }
        ensures one_fault { OnErr result (faults_in self.new ≡ one_more (faults_in self.old)) }
    {
        self.send()?;
        match self.writer.flush() {
            Ok(()) => Ok(()),
            Err(_) => Err(self.fail()),
        }
    }
}

/// Writes `bytes` until all are written or a write fails, and answers how many were written.
fn write_out<W: Write>(writer: &mut W, bytes: &[u8]) -> usize
    ensures within { result ≤ length bytes.now }
    ensures bytes { Appends (W.contents writer.old) (W.contents writer.new) (take result bytes.now) }
{
    let mut at = 0;
    while at < bytes.len() {
        match writer.write(&bytes[at..]) {
            Ok(n) if n > 0 => at += n,
            _ => break,
        }
    }
    at
}
