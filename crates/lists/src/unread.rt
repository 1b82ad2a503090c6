//! What stops a reading.
ghost use Rattle.std.specs.Prelude.{◌≡◌};
ghost use Rattle.lists.specs.declared.unread.Unread.TheVariants.{OutOfMemory};

use std::alloc::AllocError;

/// Why a line, or a part of one, was not read.
#[derive(Clone, Copy, Debug, PartialEq, Eq)]
pub enum Unread {
    Malformed,
    OutOfMemory,
}

impl From<AllocError> for Unread {
    ghost from_gives = { λ _ r. r ≡ OutOfMemory };

    fn from(_e: AllocError) -> Unread {
        Unread::OutOfMemory
    }
}
