ghost use Rattle.table_schema.specs.declared.column.SigKind.{SigKind as Kind};
ghost use Rattle.sig_grammar.specs.Syntax.{Body};
ghost use Rattle.type_records.specs.Signatures.{encoded};

use tables::Signature;

/// A signature (II.23.2), or a value that stands for one in a column of a kind.
pub trait IsSignature: Copy + Drop {
    // its content in a column of a kind
    ghost body: { Kind → Self → Body };
}

impl IsSignature for &Signature {
    ghost body = { λ column signature. signature.now };
}

/// The blob of a signature. Its content is the signature that it encodes.
impl IsSignature for &[u8] {
    ghost body = { λ column blob. encoded column blob.now };
}
