//! Why the text of a signature ended before its last piece.
ghost use Rattle.std.specs.Prelude.{◌≡◌, false, true, OnOk, is_ok, is_some};
ghost use Rattle.sig_text.specs.Refused.{refused_after};
ghost use Rattle.full_names.specs.TextEnd.{IsWhole};

use crate::text_error::TextError;
use std::fmt;

/// Why a sink takes no more of a text.
#[derive(Clone, Copy)]
pub enum TextEnd {
    /// Its writer needs no more.
    Limit,
    /// A part of the text was not written.
    Error(TextError),
}

/// The result of a sink's call from the result of its writer. It keeps the reason of a refusal.
pub fn keep(ended: &mut Option<TextEnd>, written: Result<(), TextError>) -> Option<()>
    ensures words { is_some ended.new ≡ refused_after result (is_some ended.old) }
    ensures taken { is_some result ≡ is_ok written }
    ensures kept { is_some result ≡ true → ended.new ≡ ended.old }
    ensures failed { is_some result ≡ false → ¬ IsWhole ended.new }
{
    match written {
        Ok(()) => Some(()),
        Err(error) => {
            *ended = Some(TextEnd::Error(error));
            None
        }
    }
}

/// The same of a writer that gives no reason.
pub fn keep_refusal(ended: &mut Option<TextEnd>, written: fmt::Result) -> Option<()>
    ensures words { is_some ended.new ≡ refused_after result (is_some ended.old) }
    ensures taken { is_some result ≡ is_ok written }
    ensures kept { is_some result ≡ true → ended.new ≡ ended.old }
    ensures failed { is_some result ≡ false → ¬ IsWhole ended.new }
{
    match written {
        Ok(()) => keep(ended, Ok(())),
        Err(_) => keep(ended, Err(TextError::Writer)),
    }
}

/// The result of a text from the end of its sink.
///
/// # Errors
///
/// A part of the text was not written.
pub fn result_of(ended: Option<TextEnd>) -> Result<(), TextError>
    ensures { OnOk result (IsWhole ended) }
{
    match ended {
        Some(TextEnd::Error(error)) => Err(error),
        _ => Ok(()),
    }
}
