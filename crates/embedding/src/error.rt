use packed::Fault;
use std::alloc::AllocError;
use thiserror::Error;

/// Why a root was not put into a file. Nothing was written.
#[derive(Clone, Copy, Debug, PartialEq, Eq, Error)]
pub enum EmbedError {
    /// The file breaks a rule.
    #[error("the file: {0}")]
    File(Fault),
    /// The root breaks a rule.
    #[error("the root: {0}")]
    Root(Fault),
    /// Methods, RVAs or user strings of the root are not those of the file, so code would not be found.
    #[error("the root does not lead into the file: its methods, its addresses or its user strings are others")]
    Unlike,
    /// The headers of the file overlap, or the CLI header or the metadata comes before the end of the section headers.
    #[error("the headers of the file overlap")]
    Headers,
    /// The range of the old root has something else in it: a header, a directory, a method body or the data of a field.
    #[error("the range of the old root has something else in it")]
    Occupied,
    /// The root is longer than the old one, there is no room for another section header, and the last section cannot be
    /// extended.
    #[error("there is no room for the root")]
    NoRoom,
    /// The root or the result would have more than 2^30 bytes.
    #[error("the result is longer than the limit")]
    TooLong,
    /// Out of memory.
    #[error("out of memory")]
    Memory,
}

impl From<AllocError> for EmbedError {
    ghost use Rattle.std.specs.Prelude.{◌≡◌};
    ghost use Rattle.embedding.specs.declared.error.EmbedError.TheVariants.{Memory};

    ghost from_gives = { λ _ error. error ≡ Memory };

    fn from(_error: AllocError) -> Self {
        EmbedError::Memory
    }
}

impl From<Fault> for EmbedError {
    ghost use Rattle.std.specs.Prelude.{◌≡◌};
    ghost use Rattle.embedding.specs.declared.error.EmbedError.TheVariants.{File};

    ghost from_gives = { λ fault error. error ≡ File fault };

    /// A fault of the file.
    fn from(fault: Fault) -> Self {
        EmbedError::File(fault)
    }
}
