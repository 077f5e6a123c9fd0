ghost use Rattle.std.specs.Prelude.{◌≡◌};
ghost use Rattle.schedule_text.specs.declared.error.ScheduleTextError.TheVariants.{OutOfMemory};

use std::alloc::AllocFailed;
use thiserror::Error;

/// Why the text of a schedule is refused.
#[derive(Clone, Copy, Debug, PartialEq, Eq, Error)]
pub enum ScheduleTextError {
    /// The first wrong token. The token `schedule` has the number 0, and the first worker's number
    /// is token 1.
    #[error("token {token} is wrong")]
    BadToken { token: u64 },
    /// Want of memory; it says nothing of the text.
    #[error("out of memory")]
    OutOfMemory,
}

impl<T: Drop> From<AllocFailed<T>> for ScheduleTextError {
    ghost from_gives = { λ _ e. e ≡ OutOfMemory };

    fn from(_: AllocFailed<T>) -> Self {
        ScheduleTextError::OutOfMemory
    }
}
