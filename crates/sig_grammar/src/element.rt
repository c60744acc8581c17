/// A type that is encoded as one byte (II.23.1.16).
#[derive(Clone, Copy, Debug, PartialEq, Eq)]
pub enum Element {
    /// BOOLEAN: a truth value of one byte.
    Boolean,
    /// CHAR: a UTF-16 code unit.
    Char,
    /// I1: a signed integer of one byte.
    I1,
    /// U1: an unsigned integer of one byte.
    U1,
    /// I2: a signed integer of two bytes.
    I2,
    /// U2: an unsigned integer of two bytes.
    U2,
    /// I4: a signed integer of four bytes.
    I4,
    /// U4: an unsigned integer of four bytes.
    U4,
    /// I8: a signed integer of eight bytes.
    I8,
    /// U8: an unsigned integer of eight bytes.
    U8,
    /// R4: a floating-point number of four bytes.
    R4,
    /// R8: a floating-point number of eight bytes.
    R8,
    /// STRING: `System.String`.
    String,
    /// I: a signed integer of the machine's pointer size.
    I,
    /// U: an unsigned integer of the machine's pointer size.
    U,
    /// OBJECT: `System.Object`.
    Object,
}

impl Element {
    ghost use Rattle.std.specs.Prelude.{◌≡◌};
    ghost use Rattle.sig_grammar.specs.ElementTypes.{element_code};
    ghost use Rattle.sig_grammar.specs.Reading.{element_of};

    /// The byte that encodes the type (II.23.1.16).
    pub fn byte(self) -> u8
        ensures { result ≡ element_code self }
    {
        match self {
            Element::Boolean => 0x02,
            Element::Char => 0x03,
            Element::I1 => 0x04,
            Element::U1 => 0x05,
            Element::I2 => 0x06,
            Element::U2 => 0x07,
            Element::I4 => 0x08,
            Element::U4 => 0x09,
            Element::I8 => 0x0A,
            Element::U8 => 0x0B,
            Element::R4 => 0x0C,
            Element::R8 => 0x0D,
            Element::String => 0x0E,
            Element::I => 0x18,
            Element::U => 0x19,
            Element::Object => 0x1C,
        }
    }

    /// The type that this byte alone encodes (II.23.1.16); `None` if it encodes none.
    #[tactic(auto, unfolding(crate::specs::Reading::element_of))]
    pub fn from_byte(code: u8) -> Option<Element>
        ensures { result ≡ element_of code }
    {
        match code {
            0x02 => Some(Element::Boolean),
            0x03 => Some(Element::Char),
            0x04 => Some(Element::I1),
            0x05 => Some(Element::U1),
            0x06 => Some(Element::I2),
            0x07 => Some(Element::U2),
            0x08 => Some(Element::I4),
            0x09 => Some(Element::U4),
            0x0A => Some(Element::I8),
            0x0B => Some(Element::U8),
            0x0C => Some(Element::R4),
            0x0D => Some(Element::R8),
            0x0E => Some(Element::String),
            0x18 => Some(Element::I),
            0x19 => Some(Element::U),
            0x1C => Some(Element::Object),
            _ => None,
        }
    }
}
