use std::alloc::{AllocError, AllocFailed};
use thiserror::Error;

/// The largest number of bytes of a heap that is written.
pub const HEAP_LIMIT: usize = packed::BYTE_LIMIT;

/// The reason why a pool or a heap cannot take a value.
#[derive(Debug, Clone, Copy, PartialEq, Eq, Error)]
pub enum PoolError {
    /// Out of memory.
    #[error("out of memory")]
    Memory,
    /// The heap would have more than 2^30 bytes, or a user string more bytes than a blob can have.
    #[error("the heap is full, or the user string is too long")]
    Full,
}

impl From<AllocError> for PoolError {
    ghost use Rattle.std.specs.Prelude.{◌≡◌};
    ghost use Rattle.heap_pools.specs.declared.pool_error.PoolError.TheVariants.{Memory};

    ghost from_gives = { λ _ e. e ≡ Memory };

    fn from(_: AllocError) -> PoolError {
        PoolError::Memory
    }
}

impl<T: Drop> From<AllocFailed<T>> for PoolError {
    ghost use Rattle.std.specs.Prelude.{◌≡◌};
    ghost use Rattle.heap_pools.specs.declared.pool_error.PoolError.TheVariants.{Memory};

    ghost from_gives = { λ _ e. e ≡ Memory };

    fn from(_: AllocFailed<T>) -> PoolError {
        PoolError::Memory
    }
}
