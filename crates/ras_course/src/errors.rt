//! What the errors of the calls below come to.
ghost use Rattle.std.specs.Prelude.{◌≡◌};
ghost use Rattle.ras_course.specs.Steps.{coming_of_check, coming_of_fault, coming_of_stop};

use crate::course::Coming;
use ras_catalog::CheckError;
use ras_reach::NeedsFault;
use ras_rows::Stop;
use ras_syntax::Answer;

impl From<NeedsFault> for Coming {
    ghost from_gives = { λ fault coming. coming ≡ coming_of_fault fault };

    fn from(fault: NeedsFault) -> Coming {
        match fault {
            NeedsFault::Answer(answer) => Coming::Answers(answer),
            NeedsFault::Memory => Coming::Memory,
        }
    }
}

impl From<Stop> for Coming {
    ghost from_gives = { λ stop coming. coming ≡ coming_of_stop stop };

    fn from(stop: Stop) -> Coming {
        match stop {
            Stop::Answer(answer) => Coming::Answers(answer),
            Stop::Memory => Coming::Memory,
        }
    }
}

impl From<CheckError> for Coming {
    ghost from_gives = { λ error coming. coming ≡ coming_of_check error };

    fn from(error: CheckError) -> Coming {
        match error {
            CheckError::Fault { span, fault } => Coming::Answers(Answer::Check { span, fault }),
            CheckError::Memory => Coming::Memory,
        }
    }
}
