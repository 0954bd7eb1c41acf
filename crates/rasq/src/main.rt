//! rasq, an array server: makes the real source and sink, makes one call, and ends with its status.
#![tactic(auto)]

use ras_edges::{OpenGate, StdSink, StdSource};
use ras_top::{rasq_main, refuse_memory};
use std::io::ErrorKind;
use std::process::ExitCode;
use std::rt::Env;
use std::{env, io};

fn main(rt: HostRuntime) -> ExitCode {
    let mut sink = StdSink::new(&rt);
    let status = match words_of(&rt) {
        Ok(words) => {
            let mut source = StdSource::new(&rt);
            rasq_main(&rt, rt.alloc(), &words, &mut source, &mut sink, &OpenGate)
        }
        Err(_) => refuse_memory(&mut sink),
    };
    ExitCode::from(status)
}

/// The words after the program's name. Where one isn't text there are none, which no command takes.
fn words_of(rt: &(impl Env + AllocGlobal)) -> io::Result<Vec<String>> {
    match env::args(rt) {
        Ok(words) => Ok(words.skip(1).collect(rt.alloc())?),
        Err(error) if error.kind() == ErrorKind::InvalidData => Ok(Vec::new(rt.alloc())),
        Err(error) => Err(error),
    }
}
