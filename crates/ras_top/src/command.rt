//! What the words ask for, of the commands that are built.
ghost use Rattle.std.specs.Prelude.{◌≡◌, ◌≢◌, map, string_bytes, Err};
ghost use Rattle.ras_settings.specs.declared.settings.WordsFault.TheVariants as fault;
ghost use Rattle.ras_top.specs.Commands.{AskFor, command_of};

use ras_settings::{Schedule, Settings, WordsFault, read_words};
use std::alloc::Global;

/// A command that reads a workload.
#[derive(Debug, Drop)]
pub enum Command {
    /// Say of each statement whether it passes the check.
    Check,
    /// Run the sessions by a schedule, each statement on up to so many workers, and report.
    Run { workers: u32, schedule: Schedule },
}

impl Command {
    /// On how many workers the setup is run, as each statement behind it.
    pub fn workers(&self) -> u32 {
        match self {
            Command::Check => 1,
            Command::Run { workers, .. } => *workers,
        }
    }
}

/// The command that the words ask for, or why there is none. `Memory` is want of memory, which may come
/// for any words.
pub fn read_command(alloc: Global, words: &[String]) -> Result<Command, WordsFault>
    ensures { result ≢ Err fault.Memory → AskFor (map string_bytes words.now) result }
{
    match read_words(alloc, words) {
        Ok(settings) => command_of(settings),
        Err(fault) => Err(fault),
    }
}

/// The command of these settings. Words of a command that isn't built are refused.
fn command_of(settings: Settings) -> Result<Command, WordsFault>
    ensures { result ≡ command_of settings }
{
    match settings {
        Settings::Check => Ok(Command::Check),
        Settings::Run {
            workers,
            schedule: Some(schedule),
        } => Ok(Command::Run { workers, schedule }),
        _ => Err(WordsFault::Refused),
    }
}
