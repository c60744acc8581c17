//! Facts about the definitions of this crate, as public functions with an empty body.
ghost use Rattle.std.specs.Prelude.{◌≡◌, flat_map};
ghost use Rattle.std.specs.List.{AllByRecursion};
ghost use Rattle.sig_grammar.specs.Syntax.{Body};
ghost use Rattle.sig_grammar.specs.Encodes.{IsEncodable, short};
ghost use Rattle.sig_items.specs.ItemsOf.{items_of};
ghost use Rattle.sig_items.specs.ItemParts.{encoded_item, HasItemEncoding};

/// The canonical encoding of a signature is the bytes of its items, one after another, each in its shortest form.
/// Each item has an encoding.
pub fn items_are_encoded()
    ensures encoded { (signature : Body) → IsEncodable signature → flat_map encoded_item (items_of signature) ≡ short signature }
    ensures encodable { (signature : Body) → IsEncodable signature → AllByRecursion HasItemEncoding (items_of signature) }
{}
