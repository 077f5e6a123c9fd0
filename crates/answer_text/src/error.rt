//! Why the text of an answer is refused. A log in it is refused for the same reasons as alone.

use mill_model::OutOfMemory;
use refute_log::LogTextError;
use std::alloc::AllocError;
use thiserror::Error;

/// Why an answer's text is refused. Lines are counted from the answer's first as 1.
#[derive(Clone, Copy, Debug, PartialEq, Eq, Error)]
pub enum AnswerTextError {
    /// The first line that is wrong isn't in the grammar. Where the text ends too early it is the
    /// line that is missing.
    #[error("line {line} is no line of an answer")]
    BadLine { line: u64 },
    /// The first line that is wrong is a record's, whose path doesn't come after the one before.
    #[error("the path of line {line} does not rise")]
    NotRising { line: u64 },
    /// Each line is right, but the log states another number of records.
    #[error("{stated} records are stated, and {found} are found")]
    CountDiffers { stated: u64, found: u64 },
    #[error("out of memory")]
    OutOfMemory,
}

impl From<OutOfMemory> for AnswerTextError {
    ghost use Rattle.std.specs.Prelude.{◌≡◌};
    ghost use Rattle.answer_text.specs.declared.error.AnswerTextError.TheVariants as error;

    ghost from_gives = { λ _ e. e ≡ error.OutOfMemory };

    fn from(_: OutOfMemory) -> Self {
        AnswerTextError::OutOfMemory
    }
}

impl From<AllocError> for AnswerTextError {
    ghost use Rattle.std.specs.Prelude.{◌≡◌};
    ghost use Rattle.answer_text.specs.declared.error.AnswerTextError.TheVariants as error;

    ghost from_gives = { λ _ e. e ≡ error.OutOfMemory };

    fn from(_: AllocError) -> Self {
        AnswerTextError::OutOfMemory
    }
}

impl From<LogTextError> for AnswerTextError {
    ghost use Rattle.std.specs.Prelude.{◌≡◌};
    ghost use Rattle.answer_text.specs.Judged.{error_in_log};

    ghost from_gives = { λ cause e. e ≡ error_in_log cause };

    fn from(cause: LogTextError) -> Self {
        match cause {
            LogTextError::BadLine { line } => AnswerTextError::BadLine { line },
            LogTextError::NotRising { line } => AnswerTextError::NotRising { line },
            LogTextError::CountDiffers { stated, found } => {
                AnswerTextError::CountDiffers { stated, found }
            }
            LogTextError::OutOfMemory => AnswerTextError::OutOfMemory,
        }
    }
}
