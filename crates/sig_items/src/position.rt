use table_schema::SigKind;

/// What the remainder of a signature starts with. The types in it nest at most `depth` deep.
#[derive(Clone, Copy)]
pub enum Position {
    /// The signature of a column of this kind.
    Body(SigKind),
    /// A method, after FNPTR.
    Method { depth: u8 },
    /// A type, or its remainder after some of its modifiers. The same holds for the four positions below.
    Typed { depth: u8 },
    /// The target of a pointer.
    Target { depth: u8 },
    /// A parameter or a field.
    Slot { depth: u8 },
    /// A result.
    Ret { depth: u8 },
    /// A local variable.
    Local { depth: u8 },
    /// SENTINEL, and the parameter after it.
    Marked { depth: u8 },
    /// The shape of an array.
    Shape,
    /// `further + 1` sizes of an array of this rank, and then its lower bounds.
    Sizes { further: u32, rank: u32 },
    /// The lower bounds of an array of this rank, with their count.
    LowCount { rank: u32 },
    /// `further + 1` lower bounds.
    LowBounds { further: u32 },
}

/// What follows after the current position is read to its end.
#[derive(Clone, Copy)]
pub enum Frame {
    /// `further + 1` types.
    Types {
        further: u32,
        depth: u8,
    },
    /// `further + 1` parameters, with SENTINEL before one of them if it is allowed.
    Params {
        further: u32,
        allowed: bool,
        depth: u8,
    },
    /// `further + 1` local variables.
    Locals {
        further: u32,
        depth: u8,
    },
    /// The shape of an array.
    Shape,
}
