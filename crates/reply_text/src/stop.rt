//! Why a command has nothing to say, and how the errors of readers become that.

use crate::Refusal;
use answer_text::AnswerTextError;
use instance_text::InstanceError;
use mill_model::OutOfMemory;

/// Why a command has nothing to say of its input.
#[derive(Clone, Copy, Debug, PartialEq, Eq)]
pub enum Stop {
    /// The input is refused.
    Refused(Refusal),
    /// Want of memory; it says nothing of the input.
    OutOfMemory,
}

impl From<OutOfMemory> for Stop {
    ghost use Rattle.std.specs.Prelude.{◌≡◌};
    ghost use Rattle.reply_text.specs.declared.stop.Stop.TheVariants as stop;

    ghost from_gives = { λ _ stopped. stopped ≡ stop.OutOfMemory };

    fn from(_: OutOfMemory) -> Self {
        Stop::OutOfMemory
    }
}

impl From<InstanceError> for Stop {
    ghost use Rattle.std.specs.Prelude.{◌≡◌};
    ghost use Rattle.reply_text.specs.Stop.{stop_in_instance};

    ghost from_gives = { λ why stopped. stopped ≡ stop_in_instance why };

    fn from(why: InstanceError) -> Self {
        match why {
            InstanceError::OutOfMemory => Stop::OutOfMemory,
            _ => Stop::Refused(Refusal::Instance(why)),
        }
    }
}

impl From<AnswerTextError> for Stop {
    ghost use Rattle.std.specs.Prelude.{◌≡◌};
    ghost use Rattle.reply_text.specs.Stop.{stop_in_answer};

    ghost from_gives = { λ why stopped. stopped ≡ stop_in_answer why };

    fn from(why: AnswerTextError) -> Self {
        match why {
            AnswerTextError::OutOfMemory => Stop::OutOfMemory,
            _ => Stop::Refused(Refusal::Answer(why)),
        }
    }
}
