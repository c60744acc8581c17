use sig_grammar::Element;

/// The type of an element (II.23.3).
#[derive(Clone, Copy, Debug, PartialEq, Eq)]
pub enum ElementType {
    /// A truth value, a character, a number, a string or an object. Elements of type I or U have no values.
    Simple(Element),
    /// `System.Type`, whose values are names of types.
    SystemType,
}

/// The type of an argument (II.23.3).
#[derive(Clone, Copy, Debug, PartialEq, Eq)]
pub enum ArgumentType {
    /// One element.
    One(ElementType),
    /// SZARRAY: an array of elements.
    Vector(ElementType),
}

impl ElementType {
    ghost use Rattle.std.specs.Prelude.{◌≡◌};
    ghost use Rattle.blob_values.specs.Parts.{has_values};

    /// Whether there are arrays of such elements.
    pub(crate) fn has_values(self) -> bool
        ensures { result ≡ has_values self }
    {
        !matches!(self, ElementType::Simple(Element::I | Element::U))
    }
}
