//! Which answer is due.
ghost use Rattle.std.specs.Prelude.{◌≡◌, ◌≤◌, map, length, string_bytes, Ok, Err};
ghost use Rattle.std.specs.Arc.{arc_value};
ghost use Rattle.ras_settings.specs.declared.settings.WordsFault.{WordsFault};
ghost use Rattle.ras_setup.specs.Found.{IsWantedFault, IsWorkload, refusal_seen};
ghost use Rattle.spec_commands.specs.Commands.{whole_workload_of};
ghost use Rattle.spec_grammar.specs.Tokens.{Text};
ghost use Rattle.spec_workloads.specs.Setup.{WorkloadValue};
ghost use Rattle.ras_top.specs.Answer.{IsAnswerBy, IsAnswerDue, IsAnswerOf, IsOfText, answer_to, is_wanting};
ghost use Rattle.ras_top.specs.Commands.{AskFor};
ghost use Rattle.ras_top.specs.declared.TheConstants.{MOST_BYTES};
ghost use Rattle.ras_top.specs.declared.command.Command.{Command};
ghost use Rattle.ras_top.specs.declared.command.Command.TheVariants as command;

use crate::MOST_BYTES;
use crate::answer::Answer;
use crate::command::{Command, read_command};
use crate::read_all::{ReadAllFault, read_all};
use ras_commands::check_workload;
use ras_edges::{OpenGate, Source};
use ras_server::run_shared;
use ras_settings::WordsFault;
use ras_setup::{WorkloadRefusal, read_whole_workload};
use ras_store::Workload;
use ras_workload::WorkloadFault;
use std::alloc::Global;
use std::sync::Arc;
use std::thread::Threads;

/// Judges the words, and then the text, which it reads to its end.
pub fn judge<R: Threads + Sync, S: Source>(
    rt: &R,
    alloc: Global,
    words: &[String],
    source: &mut S,
) -> Answer
    ensures due { IsAnswerDue (S.left source.old) (S.left source.new) (S.faults source.old) (S.faults source.new)
        (map string_bytes words.now) result }
    ensures unread { (fault : WordsFault) → AskFor (map string_bytes words.now) (Err fault) → source.new ≡ source.old }
    ensures faults_stay { S.faults source.old ≤ S.faults source.new }
{
    match read_command(alloc, words) {
        Ok(command) => judge_source(rt, alloc, command, source),
        Err(fault) => refuse_words(fault),
    }
}

/// The answer to words that ask for no command, or for which memory was wanting.
fn refuse_words(fault: WordsFault) -> Answer
    ensures { result ≡ answer_to fault }
{
    match fault {
        WordsFault::Memory => Answer::NoMemory,
        WordsFault::Refused
        | WordsFault::UnknownCommand
        | WordsFault::OptionNotOfCommand
        | WordsFault::BadSchedule { .. } => Answer::BadWords(fault),
    }
}

/// Reads the text to its end, and judges it.
fn judge_source<R: Threads + Sync, S: Source>(
    rt: &R,
    alloc: Global,
    command: Command,
    source: &mut S,
) -> Answer
    ensures due { IsAnswerBy (S.left source.old) (S.left source.new) (S.faults source.old) (S.faults source.new) command result }
    ensures faults_stay { S.faults source.old ≤ S.faults source.new }
{
    match read_all(alloc, source, MOST_BYTES) {
        Ok(text) => judge_text(rt, alloc, command, text.as_slice()),
        Err(ReadAllFault::Read) => Answer::ReadFailed,
        Err(ReadAllFault::TooLong) => Answer::TooLong,
        Err(ReadAllFault::Memory) => Answer::NoMemory,
    }
}

/// Judges a text that was read whole.
fn judge_text<R: Threads + Sync>(rt: &R, alloc: Global, command: Command, text: &[u8]) -> Answer
    requires { length text.now ≤ MOST_BYTES }
    ensures { IsAnswerOf command text.now result }
{
    match read_whole_workload(rt, alloc, text, command.workers(), &OpenGate) {
        Ok(workload) => judge_workload(rt, alloc, command, workload),
        Err(refusal) => refuse(refusal),
    }
}

/// Does with a workload what the command asks for.
fn judge_workload<R: Threads + Sync>(
    rt: &R,
    alloc: Global,
    command: Command,
    workload: Workload,
) -> Answer
    requires witness { IsOfText workload }
    ensures { (text : Text) (value : WorkloadValue) → whole_workload_of text ≡ Ok value → IsWorkload value workload
        → IsAnswerOf command text result }
{
    match command {
        Command::Check => check(alloc, workload),
        Command::Run { workers, schedule } => {
            run(rt, alloc, workload, schedule.as_slice(), workers)
        }
    }
}

/// The answer to a text that is no workload, or for which memory was wanting.
fn refuse(refusal: WorkloadRefusal) -> Answer
    ensures { (command : Command) (text : Text) → IsWantedFault (whole_workload_of text) refusal → IsAnswerOf command text result }
{
    if is_memory(&refusal) {
        return Answer::NoMemory;
    }
    Answer::Refused(refusal)
}

fn is_memory(refusal: &WorkloadRefusal) -> bool
    ensures { result ≡ is_wanting (refusal_seen refusal.now) }
{
    matches!(refusal, WorkloadRefusal::Outline(WorkloadFault::Memory))
}

/// Checks each statement of a workload.
fn check(alloc: Global, workload: Workload) -> Answer
    requires witness { IsOfText workload }
    ensures { (text : Text) (value : WorkloadValue) → whole_workload_of text ≡ Ok value → IsWorkload value workload
        → IsAnswerOf command.Check text result }
{
    match check_workload(alloc, &workload) {
        Ok(checks) => Answer::Checked { workload, checks },
        Err(_) => Answer::NoMemory,
    }
}

/// Runs a workload by a schedule.
fn run<R: Threads + Sync>(
    rt: &R,
    alloc: Global,
    workload: Workload,
    schedule: &[(u32, u32)],
    workers: u32,
) -> Answer
    requires witness { IsOfText workload }
    ensures { (text : Text) (value : WorkloadValue) → whole_workload_of text ≡ Ok value → IsWorkload value workload
        → IsAnswerOf (command.Run workers schedule.now) text result }
{
    let Ok(workload) = Arc::new(alloc, workload) else {
        return Answer::NoMemory;
    };
    let Ok(shared) = workload.clone() else {
        return Answer::NoMemory;
    };
    match run_shared(rt, alloc, shared, schedule, workers) {
        Ok(outcome) => Answer::Report { workload, outcome },
        Err(_) => Answer::NoMemory,
    }
}
