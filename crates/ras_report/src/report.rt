//! The whole report.
ghost use Rattle.ras_edges.specs.Sink.{Writes};
ghost use Rattle.ras_report.specs.Once.{AreAnsweredOnce};
ghost use Rattle.spec_sessions.specs.Report.{report_text, sessions_text_of};

use crate::events::write_events;
use crate::lines::write_session;
use ras_domain::List;
use ras_edges::{Failed, Sink, write_whole};
use ras_outcome::{AnswerLine, Outcome};
use ras_syntax::{Event, Script};

/// Writes the report of a run of the scripts, and takes no memory for it. No statement of a
/// transaction may be answered or refused by two events of the outcome; so it is where the outcome
/// is printable. Where the sink fails, it took a front of the report.
pub fn write_report<K: Sink>(
    scripts: &[Script],
    outcome: &Outcome,
    sink: &mut K,
) -> Result<(), Failed>
    requires once { AreAnsweredOnce outcome.now.history }
    ensures { Writes K.taken K.faults sink.old sink.new result (report_text scripts.now outcome.now) }
{
    let history = outcome.history.as_slice();
    write_parts(sink, scripts, history, outcome.answers.as_slice())
}

fn write_parts<K: Sink>(
    sink: &mut K,
    scripts: &[Script],
    history: &[Event],
    answers: &[List<AnswerLine>],
) -> Result<(), Failed>
    requires once { AreAnsweredOnce history.now }
    ensures { Writes K.taken K.faults sink.old sink.new result
        (report_text scripts.now (record { lines = answers.now; history = history.now })) }
{
    write_whole(sink, b"#rasq report 1\n")?;
    write_sessions(sink, scripts, history, answers)?;
    write_whole(sink, b"#history\n")?;
    write_events(sink, history)?;
    write_whole(sink, b"#end\n")
}

/// The sessions in their order, each with its lines.
fn write_sessions<K: Sink>(
    sink: &mut K,
    scripts: &[Script],
    history: &[Event],
    answers: &[List<AnswerLine>],
) -> Result<(), Failed>
    requires once { AreAnsweredOnce history.now }
    ensures { Writes K.taken K.faults sink.old sink.new result (sessions_text_of scripts.now history.now scripts.now answers.now) }
{
    for place in 0..scripts.len().min(answers.len()) {
        write_session(
            sink,
            scripts,
            history,
            &scripts[place],
            answers[place].as_slice(),
        )?;
    }
    Ok(())
}
