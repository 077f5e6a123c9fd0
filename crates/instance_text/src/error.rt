ghost use Rattle.std.specs.Prelude.{◌≡◌};
ghost use Rattle.instance_text.specs.declared.error.InstanceError.TheVariants.{OutOfMemory};

use crate::Field;
use std::alloc::{AllocError, AllocFailed};
use thiserror::Error;

/// Why a text was refused: what is wrong with its first wrong token. Tokens are counted from 1,
/// bytes from 0.
#[derive(Clone, Copy, Debug, PartialEq, Eq, Error)]
pub enum InstanceError {
    /// The token holds a byte that is no digit; the first such byte stands here.
    #[error("byte {at} is no digit")]
    BadByte { at: usize },
    /// The text ends before the token.
    #[error("token {token} is missing")]
    Short { token: u32 },
    /// The token's number is out of the range of its field.
    #[error("token {token} is out of range")]
    OutOfRange { what: Field, token: u32 },
    /// Want of memory; it says nothing of the text.
    #[error("out of memory")]
    OutOfMemory,
}

impl From<AllocError> for InstanceError {
    ghost from_gives = { λ _ e. e ≡ OutOfMemory };

    fn from(_: AllocError) -> Self {
        InstanceError::OutOfMemory
    }
}

impl<T: Drop> From<AllocFailed<T>> for InstanceError {
    ghost from_gives = { λ _ e. e ≡ OutOfMemory };

    fn from(_: AllocFailed<T>) -> Self {
        InstanceError::OutOfMemory
    }
}
