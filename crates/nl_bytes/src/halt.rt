ghost use Rattle.std.specs.Prelude.{◌≡◌};

use nl_base::ReadError;
use std::alloc::{AllocError, AllocFailed};

/// Why a reader of bytes answers none.
#[derive(Clone, Copy)]
pub enum Halt {
    /// The source failed.
    Failed,
    /// The byte ahead stands past the limit of an input.
    TooLong,
    /// Memory ran out.
    NoMemory,
}

impl From<AllocError> for Halt {
    ghost use Rattle.nl_bytes.specs.declared.halt.Halt.TheVariants.{NoMemory};

    ghost from_gives = { λ _ e. e ≡ NoMemory };

    fn from(_: AllocError) -> Self {
        Halt::NoMemory
    }
}

impl<T: Drop> From<AllocFailed<T>> for Halt {
    ghost use Rattle.nl_bytes.specs.declared.halt.Halt.TheVariants.{NoMemory};

    ghost from_gives = { λ _ e. e ≡ NoMemory };

    fn from(_: AllocFailed<T>) -> Self {
        Halt::NoMemory
    }
}

impl From<Halt> for ReadError {
    ghost use Rattle.nl_bytes.specs.Halts.{error_of};

    ghost from_gives = { λ h e. e ≡ error_of h };

    fn from(halt: Halt) -> Self {
        match halt {
            Halt::Failed => ReadError::ReadFault,
            Halt::TooLong => ReadError::TooLong,
            Halt::NoMemory => ReadError::NoMemory,
        }
    }
}
