use crate::types::{MethodSig, Modifier, Ret, Slot, SlotKind, TypeSig};

/// What may precede the type of a local variable (II.23.2.6, II.23.2.9).
#[derive(Clone, Copy, Debug, PartialEq, Eq)]
pub enum Prefix {
    /// A custom modifier.
    Mod(Modifier),
    /// PINNED: the garbage collector must not move what the variable refers to.
    Pinned,
}

/// A local variable (II.23.2.6).
#[derive(Debug, Drop)]
pub struct Local {
    /// The modifiers and PINNED before its type, in order.
    pub prefix: Vec<Prefix>,
    /// The kind and type of its value.
    pub kind: SlotKind,
}

/// The signature of a field (II.23.2.4).
#[derive(Debug, Drop)]
pub struct FieldSig(pub Slot);

/// The signature of a property (II.23.2.5).
#[derive(Debug, Drop)]
pub struct PropertySig {
    /// HASTHIS: the property belongs to an instance.
    pub this: bool,
    /// Its type.
    pub of: Slot,
    /// The parameters of its accessors, in order.
    pub params: Vec<Slot>,
}

/// The type arguments of a generic method (II.23.2.15), in order.
#[derive(Debug, Drop)]
pub struct InstanceSig(pub Vec<TypeSig>);

/// The local variables of a method (II.23.2.6), in order.
#[derive(Debug, Drop)]
pub struct LocalsSig(pub Vec<Local>);

/// A whole signature (II.23.2).
///
/// A body is dropped and printed by a recursion as deep as its types nest (see [`Core`](crate::Core)).
#[derive(Debug, Drop)]
pub enum SigBody {
    /// A field (II.23.2.4).
    Field(FieldSig),
    /// A method (II.23.2.1, II.23.2.2).
    Method(MethodSig),
    /// A property (II.23.2.5).
    Property(PropertySig),
    /// Local variables (II.23.2.6).
    Locals(LocalsSig),
    /// The type arguments of a generic method (II.23.2.15).
    Instance(InstanceSig),
    /// A type (II.23.2.14).
    TypeSpec(Ret),
}
