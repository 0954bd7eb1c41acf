ghost use Rattle.std.specs.Prelude.{◌≡◌, ◌≢◌, MatchOption, MatchBool};
ghost use Rattle.ras_settings.specs.Settings.{FitsCommand, HasOtherOption, command_word, takes_option};
ghost use Rattle.ras_settings.specs.Values.{options_asked};
ghost use Rattle.ras_settings.specs.declared.command.CommandName.{CommandName as NameOfCommand};

use crate::form::OptionName;
use crate::values::Values;

/// What the program is asked to do.
#[derive(Clone, Copy, Debug, PartialEq, Eq)]
pub enum CommandName {
    /// Runs a workload and writes its report.
    Run,
    /// Checks each statement of a workload.
    Check,
    /// Lists the locks of each statement of a workload.
    Plan,
    /// Generates a workload.
    Gen,
    /// Runs a generated workload and writes a summary.
    Sample,
    /// Says whether a report is one of its workload.
    Audit,
}

/// The command of a name.
pub(crate) fn command_named(word: &str) -> Option<CommandName>
    ensures { MatchOption result ((name : NameOfCommand) → word.now ≢ command_word name) (λ name. word.now ≡ command_word name) }
{
    match word {
        "run" => Some(CommandName::Run),
        "check" => Some(CommandName::Check),
        "plan" => Some(CommandName::Plan),
        "gen" => Some(CommandName::Gen),
        "sample" => Some(CommandName::Sample),
        "audit" => Some(CommandName::Audit),
        _ => None,
    }
}

impl CommandName {
    /// Whether the command takes the option.
    pub fn takes(self, option: OptionName) -> bool
        ensures { result ≡ takes_option self option }
    {
        match (self, option) {
            (CommandName::Run, OptionName::Workers | OptionName::Schedule) => true,
            (CommandName::Gen | CommandName::Sample, OptionName::Seed | OptionName::Size) => true,
            _ => false,
        }
    }

    /// Whether the command takes each option that is given.
    pub(crate) fn fits(self, values: Values<'_>) -> bool
        ensures { MatchBool result (FitsCommand self (options_asked values.entry)) (HasOtherOption self (options_asked values.entry)) }
    {
        if values.workers.is_some() && !self.takes(OptionName::Workers) {
            return false;
        }
        if values.schedule.is_some() && !self.takes(OptionName::Schedule) {
            return false;
        }
        if values.seed.is_some() && !self.takes(OptionName::Seed) {
            return false;
        }
        if values.size.is_some() && !self.takes(OptionName::Size) {
            return false;
        }
        true
    }
}
