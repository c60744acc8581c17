use packed::Fault;
use std::alloc::AllocError;
use thiserror::Error;

/// The reason why no model was loaded.
#[derive(Clone, Copy, Debug, PartialEq, Eq, Error)]
pub enum LoadError {
    /// The first rule that the bytes break. They have no model.
    #[error("{0}")]
    Fault(Fault),
    /// The bytes have a model, but it could not be allocated.
    #[error("out of memory")]
    Memory,
}

impl From<Fault> for LoadError {
    ghost use Rattle.std.specs.Prelude.{◌≡◌};
    ghost use Rattle.owned_model.specs.declared.error.LoadError.TheVariants as load;

    ghost from_gives = { λ fault error. error ≡ load.Fault fault };

    fn from(fault: Fault) -> Self {
        LoadError::Fault(fault)
    }
}

impl From<AllocError> for LoadError {
    ghost use Rattle.std.specs.Prelude.{◌≡◌};
    ghost use Rattle.owned_model.specs.declared.error.LoadError.TheVariants.{Memory};

    ghost from_gives = { λ _ error. error ≡ Memory };

    fn from(_error: AllocError) -> Self {
        LoadError::Memory
    }
}
