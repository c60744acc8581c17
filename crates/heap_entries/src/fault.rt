ghost use Rattle.std.specs.Prelude.{◌≡◌};
ghost use Rattle.heap_entries.specs.Rules.{code_of};

use packed::FaultCode;
use thiserror::Error;

/// The reason why an index into a heap is invalid.
#[derive(Clone, Copy, Debug, PartialEq, Eq, Error)]
pub enum HeapFault {
    /// There is no NUL at the index or after it in `#Strings` (II.24.2.3).
    #[error("BadString: no NUL at the index or after it in #Strings (rule 501)")]
    BadString,
    /// The text at an index into `#Strings` is not UTF-8 (II.24.2.3).
    #[error("BadUtf8: the text at the index into #Strings is not UTF-8 (rule 502)")]
    BadUtf8,
    /// There is no blob at an index into `#Blob` or `#US` (II.24.2.4).
    #[error("BadBlob: no blob at the index into #Blob or #US (rule 503)")]
    BadBlob,
    /// `#GUID` has no entry with this number (II.24.2.5).
    #[error("BadGuid: #GUID has no entry with this number (rule 504)")]
    BadGuid,
    /// A user string has an even number of bytes, more than 0 (II.24.2.4).
    #[error("BadUserString: a user string with an even number of bytes, more than 0 (rule 508)")]
    BadUserString,
}

impl HeapFault {
    /// The rule that is broken. It is reported at the offset of the index, which the caller knows.
    pub fn code(self) -> FaultCode
        ensures { result ≡ code_of self }
    {
        match self {
            HeapFault::BadString => FaultCode::BadString,
            HeapFault::BadUtf8 => FaultCode::BadUtf8,
            HeapFault::BadBlob => FaultCode::BadBlob,
            HeapFault::BadGuid => FaultCode::BadGuid,
            HeapFault::BadUserString => FaultCode::BadUserString,
        }
    }
}
