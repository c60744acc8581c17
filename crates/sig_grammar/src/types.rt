use crate::element::Element;
use table_schema::Token;

/// A custom modifier (II.23.2.7): a type that qualifies the type after it.
#[derive(Clone, Copy, Debug, PartialEq, Eq)]
pub struct Modifier {
    /// `true` for CMOD_REQD (required), `false` for CMOD_OPT (optional).
    pub required: bool,
    /// The modifier's type: a row of TypeDef, TypeRef or TypeSpec.
    pub of: Token,
}

/// A type (II.23.2.12) with the custom modifiers before it.
#[derive(Debug, Drop)]
#[cycle(types)]
pub struct TypeSig {
    /// The modifiers, in order.
    pub mods: Vec<Modifier>,
    /// The type that they qualify.
    pub core: Core,
}

/// A type without the modifiers before it (II.23.2.12).
///
/// A value is dropped and printed by a recursion as deep as its types nest, also if it has no encoding. So a program
/// that nests types itself has to bound their depth: 1,000 are safe, and a million run out of stack. No type that is
/// decoded nests deeper than 128.
#[derive(Debug, Drop)]
#[cycle(types)]
pub enum Core {
    /// A type that is encoded as one byte.
    Simple(Element),
    /// PTR: an unmanaged pointer to a type with modifiers. `None` is VOID.
    Pointer(Vec<Modifier>, Option<Box<Core>>),
    /// SZARRAY: an array of one dimension with lower bound 0.
    Vector(Box<TypeSig>),
    /// ARRAY: an array of an element type, with a shape.
    Array(Box<TypeSig>, Shape),
    /// CLASS: a row of TypeDef, TypeRef or TypeSpec.
    Class(Token),
    /// VALUETYPE: a row of TypeDef, TypeRef or TypeSpec.
    Value(Token),
    /// VAR: a generic parameter of a type, counted from 0.
    Var(u32),
    /// MVAR: a generic parameter of a method, counted from 0.
    MVar(u32),
    /// GENERICINST: an instance of a generic type.
    Instance {
        /// `true` for VALUETYPE, `false` for CLASS.
        value: bool,
        /// The generic type: a row of TypeDef, TypeRef or TypeSpec.
        of: Token,
        /// The type arguments, in order.
        args: Vec<TypeSig>,
    },
    /// FNPTR: a pointer to a method.
    Function(Box<MethodSig>),
}

/// The shape of an array (II.23.2.13).
#[derive(Debug, PartialEq, Eq, Drop)]
pub struct Shape {
    /// The number of dimensions, at least 1.
    pub rank: u32,
    /// The sizes of the first dimensions. There are at most `rank` of them.
    pub sizes: Vec<u32>,
    /// The lower bounds of the first dimensions. There are at most `rank` of them.
    pub low: Vec<i32>,
}

/// A parameter, a field or a result (II.23.2.10, II.23.2.11), with its custom modifiers.
#[derive(Debug, Drop)]
#[cycle(types)]
pub struct Slot {
    /// The modifiers, in order.
    pub mods: Vec<Modifier>,
    /// The kind and type of its value.
    pub kind: SlotKind,
}

/// The kind and type of a parameter, a field, a local variable or a result (II.23.2.10).
#[derive(Debug, Drop)]
#[cycle(types)]
pub enum SlotKind {
    /// TYPEDBYREF: a typed reference, which carries its type.
    TypedRef,
    /// A value of a type.
    Plain(Core),
    /// BYREF: a managed reference to a type with modifiers.
    ByRef(Vec<Modifier>, Core),
}

/// The result of a method (II.23.2.11).
#[derive(Debug, Drop)]
#[cycle(types)]
pub enum Ret {
    /// A value.
    Slot(Slot),
    /// VOID with the modifiers before it: no value.
    Void(Vec<Modifier>),
}

/// A method (II.23.2.1 to II.23.2.3).
#[derive(Debug, Drop)]
#[cycle(types)]
pub struct MethodSig {
    /// The calling convention: 0 default, 1 C, 2 stdcall, 3 thiscall, 4 fastcall, 5 vararg,
    /// 9 unmanaged.
    pub kind: u8,
    /// HASTHIS: the method is called on an instance.
    pub this: bool,
    /// EXPLICITTHIS: the instance is the first parameter of the method.
    pub explicit: bool,
    /// The number of generic parameters; `None` if the method is not generic.
    pub generic: Option<u32>,
    /// The result.
    pub ret: Ret,
    /// The parameters, in order.
    pub params: Vec<Slot>,
    /// The number of parameters before SENTINEL, if there is one. It is less than the number of parameters.
    /// The parameters after SENTINEL are the call's variable arguments. Only the kinds 1 and 5 may have one.
    pub sentinel: Option<u32>,
}
