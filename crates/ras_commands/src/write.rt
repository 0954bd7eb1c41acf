//! How checks are written.
ghost use Rattle.std.specs.Prelude.{ℕ};
ghost use Rattle.ras_edges.specs.Sink.{Writes};
ghost use Rattle.ras_commands.specs.Texts.{check_word, checks_text, line_of, lines_of, sessions_of};

use crate::checks::{Checks, StatementCheck};
use ras_domain::List;
use ras_edges::{Failed, Piece, Sink, write_pieces, write_whole};
use ras_report::{write_check_fault, write_syntax_fault};
use ras_syntax::Script;

/// Writes what the check says of each statement of each session, a line for each. It takes no memory. Where the sink
/// fails, it took a front of the text.
pub fn write_checks<K: Sink>(
    sink: &mut K,
    scripts: &[Script],
    checks: &Checks,
) -> Result<(), Failed>
    ensures { Writes K.taken K.faults sink.old sink.new result (checks_text scripts.now checks.now.sessions) }
{
    write_whole(sink, b"#rasq check 1\n")?;
    write_sessions(sink, scripts, checks.sessions.as_slice())?;
    write_whole(sink, b"#end\n")
}

/// The sessions in their order, each with its lines.
fn write_sessions<K: Sink>(
    sink: &mut K,
    scripts: &[Script],
    checks: &[List<StatementCheck>],
) -> Result<(), Failed>
    ensures { Writes K.taken K.faults sink.old sink.new result (sessions_of scripts.now checks.now) }
{
    for place in 0..scripts.len().min(checks.len()) {
        write_session(sink, &scripts[place], checks[place].as_slice())?;
    }
    Ok(())
}

/// The lines of a session, its statements counted from 1.
fn write_session<K: Sink>(
    sink: &mut K,
    script: &Script,
    checks: &[StatementCheck],
) -> Result<(), Failed>
    ensures { Writes K.taken K.faults sink.old sink.new result (lines_of script.now.name 1 checks.now) }
{
    for place in 0..checks.len() {
        write_line(sink, script.name.bytes(), place as u64 + 1, &checks[place])?;
    }
    Ok(())
}

/// The line of a statement, as `A 2 check no_type span 7:9`.
fn write_line<K: Sink>(
    sink: &mut K,
    name: &[u8],
    number: u64,
    check: &StatementCheck,
) -> Result<(), Failed>
    ensures { Writes K.taken K.faults sink.old sink.new result (line_of name.now number check.now) }
{
    write_pieces(
        sink,
        &[
            Piece::Text(name),
            Piece::Text(b" "),
            Piece::Count(number),
            Piece::Text(b" "),
        ],
    )?;
    write_check(sink, *check)?;
    write_whole(sink, b"\n")
}

fn write_check<K: Sink>(sink: &mut K, check: StatementCheck) -> Result<(), Failed>
    ensures { Writes K.taken K.faults sink.old sink.new result (check_word check) }
{
    match check {
        StatementCheck::Fine => write_whole(sink, b"ok"),
        StatementCheck::Syntax(fault) => write_syntax_fault(sink, fault),
        StatementCheck::Fault { span, fault } => write_check_fault(sink, span, fault),
    }
}
