use ras_domain::List;

/// Which session takes a step, one after another: a session's number, and how many steps.
pub type Schedule = List<(u32, u32)>;

/// What the words ask for.
#[derive(Debug, Drop)]
pub enum Settings {
    /// Run a workload with so many workers, on threads or by a schedule.
    Run {
        workers: u32,
        schedule: Option<Schedule>,
    },
    /// Check each statement of a workload.
    Check,
    /// List the locks of each statement of a workload.
    Plan,
    /// Generate the workload of a seed and a size.
    Gen {
        seed: u32,
        size: u32,
    },
    /// Run that workload, and sum up.
    Sample {
        seed: u32,
        size: u32,
    },
    /// Judge a report.
    Audit,
}

/// The first fault of the words, in this order. Words that are refused have the first of these that fits.
#[derive(Clone, Copy, Debug, PartialEq, Eq)]
pub enum WordsFault {
    /// The words aren't a name followed by options with their values, or the value of an option that
    /// takes a number isn't a number in its range.
    Refused,
    /// The name is no command's.
    UnknownCommand,
    /// The command doesn't take an option that is given.
    OptionNotOfCommand,
    /// The schedule's text goes on as no schedule does, from this byte on (counted from 0).
    BadSchedule { place: u32 },
    /// Want of memory, which may come at any point.
    Memory,
}
