//! The line that refuses a text.
ghost use Rattle.std.specs.Prelude.{option_map};
ghost use Rattle.ras_commands.specs.Texts.{refusal_line, refusal_text};
ghost use Rattle.ras_edges.specs.Sink.{Writes};
ghost use Rattle.ras_setup.specs.Found.{setup_fault_seen};
ghost use Rattle.ras_workload.specs.Told.{fault_seen};
ghost use Rattle.spec_workloads.specs.Answers.{setup_fault_text, workload_refusal};
ghost use Rattle.spec_workloads.specs.Setup.{no_outline, setup_failed};

use ras_edges::{Failed, Piece, Sink, write_pieces, write_whole};
use ras_report::{write_refused_line, write_setup_answer, write_syntax_fault};
use ras_setup::{SetupFault, WorkloadRefusal};
use ras_workload::WorkloadFault;

/// Writes the line that says why a text is no workload, or `refused memory`. It takes no memory. Where the sink fails,
/// it took a front of the line.
pub fn write_refusal<K: Sink>(sink: &mut K, refusal: &WorkloadRefusal) -> Result<(), Failed>
    ensures { Writes K.taken K.faults sink.old sink.new result (refusal_text refusal.now) }
{
    match refusal {
        WorkloadRefusal::Outline(fault) => write_outline_fault(sink, *fault),
        WorkloadRefusal::SetupFailed { statement, fault } => {
            write_setup_failed(sink, *statement, fault)
        }
    }
}

fn write_outline_fault<K: Sink>(sink: &mut K, fault: WorkloadFault) -> Result<(), Failed>
    ensures { Writes K.taken K.faults sink.old sink.new result (refusal_line (option_map no_outline (fault_seen fault))) }
{
    match fault {
        WorkloadFault::BadHeading { line } => write_refused_line(sink, b"heading", line),
        WorkloadFault::BadType { line } => write_refused_line(sink, b"type", line),
        WorkloadFault::TooManySessions { line } => write_refused_line(sink, b"sessions", line),
        WorkloadFault::TooManyStatements { line } => write_refused_line(sink, b"statements", line),
        WorkloadFault::NoEnd => write_whole(sink, b"refused no end\n"),
        WorkloadFault::Memory => write_whole(sink, b"refused memory\n"),
    }
}

/// That a statement of the setup isn't done, as `refused setup statement 2 syntax unexpected at 7`.
fn write_setup_failed<K: Sink>(
    sink: &mut K,
    statement: u32,
    fault: &SetupFault,
) -> Result<(), Failed>
    ensures { Writes K.taken K.faults sink.old sink.new result (workload_refusal (setup_failed statement (setup_fault_seen fault.now))) }
{
    write_pieces(
        sink,
        &[
            Piece::Text(b"refused setup statement "),
            Piece::Count(u64::from(statement)),
            Piece::Text(b" "),
        ],
    )?;
    write_setup_fault(sink, fault)?;
    write_whole(sink, b"\n")
}

fn write_setup_fault<K: Sink>(sink: &mut K, fault: &SetupFault) -> Result<(), Failed>
    ensures { Writes K.taken K.faults sink.old sink.new result (setup_fault_text (setup_fault_seen fault.now)) }
{
    match fault {
        SetupFault::Syntax(fault) => write_syntax_fault(sink, *fault),
        SetupFault::Answer(answer) => write_setup_answer(sink, answer),
        SetupFault::Word => write_whole(sink, b"word"),
    }
}
