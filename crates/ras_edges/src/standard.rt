//! Standard input and output.
ghost use Rattle.std.specs.Prelude.{◌≡◌, ◌≤◌, [], OnOk, OnErr};
ghost use Rattle.std.specs.Io.{ReadsAtMost};
ghost use Rattle.std.specs.Io.KnownBytes.{ReadConsumes};
ghost use Rattle.ras_edges.specs.Faults.{Rose, one_more};

use crate::gathering::GatheringSink;
use crate::source::{Failed, Source};
use std::io::{Printer, Read, writer};

/// Standard input. It tells the bytes that its reader tells, which is none at a runtime of the
/// system; its count rises at each error.
#[derive(Drop)]
pub struct StdSource<R: Input> {
    reader: R::Reader,
    faults: u64,
}

impl<R: Input> StdSource<R> {
    ghost use Rattle.ras_edges.specs.Standard.{failed_inputs};

    /// Standard input, from where it stands.
    pub fn new(rt: &R) -> StdSource<R>
        ensures { failed_inputs result ≡ 0 }
    {
        StdSource {
            reader: rt.reader(),
            faults: 0,
        }
    }
}

impl<R: Input> Source for StdSource<R> {
    ghost use Rattle.ras_edges.specs.Standard.{reader_of, failed_inputs};

    ghost left = { λ s. R.Reader.remaining (reader_of s) };

    ghost faults = { failed_inputs };

    fn read(&mut self, into: &mut [u8]) -> Result<usize, Failed>
        ensures count { ReadsAtMost result into.new }
        ensures bytes { ReadConsumes (R.Reader.remaining (reader_of self.old)) (R.Reader.remaining (reader_of self.new)) result into.new }
        ensures faults_stay { failed_inputs self.old ≤ failed_inputs self.new }
        ensures has_cause { OnErr result (Rose (failed_inputs self.old) (failed_inputs self.new)) }

        ensures no_fault { OnOk result (failed_inputs self.new ≡ failed_inputs self.old) }
        ensures one_fault { OnErr result (failed_inputs self.new ≡ one_more (failed_inputs self.old)) }
    {
        match self.reader.read(into) {
            Ok(n) => Ok(n),
            Err(_) => {
                self.faults = self.faults.saturating_add(1);
                Err(Failed)
            }
        }
    }
}

/// Standard output, gathered so that small pieces make few system calls.
pub type StdSink<'a, R> = GatheringSink<Printer<'a, R>>;

impl<'a, R: Print> GatheringSink<Printer<'a, R>> {
    ghost use Rattle.ras_edges.specs.Gathering.{gathered_in, faults_in};

    /// Standard output, with nothing gathered yet.
    pub fn new(rt: &'a R) -> StdSink<'a, R>
        ensures none_gathered { gathered_in result ≡ [] }
        ensures no_fault { faults_in result ≡ 0 }
    {
        GatheringSink::over(writer(rt))
    }
}
