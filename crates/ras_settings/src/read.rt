ghost use Rattle.std.specs.Prelude.{◌≡◌, ◌≢◌, map, Result};
ghost use Rattle.std.specs.String.{string_bytes};
ghost use Rattle.ras_settings.specs.Settings.{Mean, NumbersMean, Outcome, ScheduleMeans, settings_of};
ghost use Rattle.ras_settings.specs.Values.{options_asked, text_in};

use crate::command::{CommandName, command_named};
use crate::form::has_form;
use crate::number::{Numbers, read_numbers};
use crate::schedule::read_schedule;
use crate::settings::{Schedule, Settings, WordsFault};
use crate::values::{Values, read_values};
use std::alloc::Global;

/// The settings of a command, of the numbers and the schedule that it takes.
fn settings_of(name: CommandName, numbers: Numbers, schedule: Option<Schedule>) -> Settings
    ensures { result ≡ settings_of name numbers schedule }
{
    let Numbers {
        workers,
        seed,
        size,
    } = numbers;
    match name {
        CommandName::Run => Settings::Run { workers, schedule },
        CommandName::Check => Settings::Check,
        CommandName::Plan => Settings::Plan,
        CommandName::Gen => Settings::Gen { seed, size },
        CommandName::Sample => Settings::Sample { seed, size },
        CommandName::Audit => Settings::Audit,
    }
}

/// Judges the schedule, the last of all.
fn with_schedule(
    alloc: Global,
    name: CommandName,
    numbers: Numbers,
    schedule: Option<&str>,
) -> Result<Settings, WordsFault>
    ensures { result ≢ Err WordsFault.Memory → ScheduleMeans name numbers (text_in schedule.entry) result }
{
    let Some(text) = schedule else {
        return Ok(settings_of(name, numbers, None));
    };
    match read_schedule(alloc, text) {
        Ok(schedule) => Ok(settings_of(name, numbers, Some(schedule))),
        Err(fault) => Err(fault),
    }
}

/// Judges the values in order: numbers, command, options, schedule.
fn judge(alloc: Global, values: Values<'_>) -> Result<Settings, WordsFault>
    ensures { result ≢ Err WordsFault.Memory → NumbersMean values.entry.command.now (options_asked values.entry) result }
{
    let Some(numbers) = read_numbers(values) else {
        return Err(WordsFault::Refused);
    };
    let Some(name) = command_named(values.command) else {
        return Err(WordsFault::UnknownCommand);
    };
    if !name.fits(values) {
        return Err(WordsFault::OptionNotOfCommand);
    }
    with_schedule(alloc, name, numbers, values.schedule)
}

/// The settings that the words of the command line give, without the program's name, or the first fault
/// of the words. `Memory` is want of memory, which may come for any words that are of the form.
pub fn read_words(alloc: Global, words: &[String]) -> Result<Settings, WordsFault>
    ensures meant { result ≢ Err WordsFault.Memory → Mean (map string_bytes words.now) result }
    ensures alone { (outcome : Outcome) → Mean (map string_bytes words.now) outcome → result ≢ Err WordsFault.Memory → result ≡ outcome }
{
    if !has_form(words) {
        return Err(WordsFault::Refused);
    }
    let Ok(values) = read_values(alloc, words) else {
        return Err(WordsFault::Memory);
    };
    judge(alloc, values)
}
