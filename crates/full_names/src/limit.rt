use std::fmt;

/// Whether the name of a type of another module begins with its scope (II.7.3).
#[derive(Clone, Copy)]
pub enum Scopes {
    /// `System.Object`
    Omitted,
    /// `[mscorlib]System.Object`
    Written,
}

/// Says when a writer needs no more of a text. Then what follows is passed over: names are not looked up, and signatures are
/// not walked to their end.
///
/// A signature of some kilobytes may name a long type many thousand times. So its text may be thousands of times longer
/// than the file.
pub trait Limit<W: fmt::Write> {
    ghost use Rattle.std.specs.Prelude.{◌≡◌, ℕ, List, IsTrue};
    ghost use Rattle.full_names.specs.declared.limit.Scopes.{Scopes};
    ghost use Rattle.full_names.specs.declared.limit.Scopes.TheVariants.{Omitted};

    /// Whether scopes are written. The default says no.
    ghost scopes: { Scopes } = { Omitted };

    /// Whether the writer has all that it needs: whatever it is given does not change it.
    fn is_reached(&self, writer: &W) -> bool
        ensures { IsTrue result → (text : List ℕ) → W.write_str_gives writer.now text writer.now };

    /// Whether scopes are written.
    fn scopes_of_names(&self) -> Scopes
        ensures { result ≡ scopes };
}

/// The limit of a writer that needs the whole text.
#[derive(Clone, Copy)]
pub struct NoLimit;

impl<W: fmt::Write> Limit<W> for NoLimit {
    fn is_reached(&self, _writer: &W) -> bool {
        false
    }

    fn scopes_of_names(&self) -> Scopes {
        Scopes::Omitted
    }
}
