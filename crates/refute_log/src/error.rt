use mill_model::OutOfMemory;
use std::alloc::AllocFailed;
use thiserror::Error;

/// Why a log's text is refused. Lines are counted from the text's first.
#[derive(Clone, Copy, Debug, PartialEq, Eq, Error)]
pub enum LogTextError {
    /// The first line that is wrong isn't in the grammar. Where the text ends too early it is the
    /// line that is missing.
    #[error("line {line} is no line of a log")]
    BadLine { line: u64 },
    /// The first line that is wrong is a record's, whose path doesn't come after the one before.
    #[error("the path of line {line} does not rise")]
    NotRising { line: u64 },
    /// Each line is right, but the first one states another number of records.
    #[error("{stated} records are stated, and {found} are found")]
    CountDiffers { stated: u64, found: u64 },
    #[error("out of memory")]
    OutOfMemory,
}

impl From<OutOfMemory> for LogTextError {
    ghost use Rattle.std.specs.Prelude.{◌≡◌};
    ghost use Rattle.refute_log.specs.declared.error.LogTextError.TheVariants as refusal;

    ghost from_gives = { λ _ e. e ≡ refusal.OutOfMemory };

    fn from(_: OutOfMemory) -> Self {
        LogTextError::OutOfMemory
    }
}

impl<T: Drop> From<AllocFailed<T>> for LogTextError {
    ghost use Rattle.std.specs.Prelude.{◌≡◌};
    ghost use Rattle.refute_log.specs.declared.error.LogTextError.TheVariants as refusal;

    ghost from_gives = { λ _ e. e ≡ refusal.OutOfMemory };

    fn from(_: AllocFailed<T>) -> Self {
        LogTextError::OutOfMemory
    }
}
