use sig_grammar::{CallingConvention, Element, Modifier};
use table_schema::Token;

/// The head of a method (II.23.2.1 to II.23.2.3): what precedes its result and its parameters.
#[derive(Clone, Copy, Debug, PartialEq, Eq)]
pub struct MethodHead {
    /// How the method is called.
    pub convention: CallingConvention,
    /// HASTHIS: the method is called on an instance.
    pub this: bool,
    /// EXPLICITTHIS: the instance is the first parameter of the method.
    pub explicit: bool,
    /// The number of generic parameters; `None` if the method is not generic.
    pub generic: Option<u32>,
    /// The number of parameters that follow the result.
    pub params: u32,
}

/// An item of a signature (II.23.2): the content of a few of its bytes. Its parts follow as further items, in
/// encoded order.
#[derive(Clone, Copy, Debug, PartialEq, Eq)]
pub enum Item {
    /// A field (II.23.2.4). Its type follows.
    Field,
    /// The head of a method. Its result follows, then its parameters.
    Method(MethodHead),
    /// The head of a property (II.23.2.5). Its type follows, then its parameters.
    Property {
        /// HASTHIS: the property belongs to an instance.
        this: bool,
        /// The number of parameters that follow the type.
        params: u32,
    },
    /// The number of local variables (II.23.2.6). They follow.
    Locals(u32),
    /// The number of type arguments of a generic method (II.23.2.15). They follow.
    Arguments(u32),
    /// A modifier of the type that follows (II.23.2.7).
    Modifier(Modifier),
    /// PINNED: the target of the local variable that follows must not move (II.23.2.9).
    Pinned,
    /// SENTINEL: the variable arguments of the call follow (II.23.2.2, II.23.2.3).
    Sentinel,
    /// VOID: no value, or the target of an untyped pointer.
    Void,
    /// TYPEDBYREF: a typed reference, which carries its type.
    TypedRef,
    /// BYREF: a managed reference to the type that follows.
    ByRef,
    /// A type that is encoded as one byte.
    Simple(Element),
    /// PTR: an unmanaged pointer to the type that follows, or to VOID.
    Pointer,
    /// SZARRAY: an array of one dimension with lower bound 0, of the type that follows.
    Vector,
    /// ARRAY: an array of the type that follows. Its shape follows that type.
    Array,
    /// CLASS: a row of TypeDef, TypeRef or TypeSpec.
    Class(Token),
    /// VALUETYPE: a row of TypeDef, TypeRef or TypeSpec.
    Value(Token),
    /// VAR: a generic parameter of a type, counted from 0.
    Var(u32),
    /// MVAR: a generic parameter of a method, counted from 0.
    MVar(u32),
    /// GENERICINST: an instance of a generic type. Its type arguments follow.
    Instance {
        /// `true` for VALUETYPE, `false` for CLASS.
        value: bool,
        /// The generic type: a row of TypeDef, TypeRef or TypeSpec.
        of: Token,
        /// The number of type arguments that follow.
        args: u32,
    },
    /// FNPTR: a pointer to the method whose head follows.
    Function,
    /// The shape of an array (II.23.2.13), after the type of its elements.
    Shape {
        /// The number of dimensions, at least 1.
        rank: u32,
        /// The number of sizes that follow, at most `rank`.
        sizes: u32,
    },
    /// The size of the next dimension.
    Size(u32),
    /// The number of lower bounds that follow, at most the rank. It follows the sizes.
    LowBounds(u32),
    /// The lower bound of the next dimension.
    LowBound(i32),
}
