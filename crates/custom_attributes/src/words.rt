//! The words for types (II.7.1) and members.
ghost use Rattle.std.specs.Prelude.{◌≡◌};
ghost use Rattle.custom_attributes.specs.Texts.{member_word, type_word};

use blob_values::{ElementType, Member};
use sig_text::element_name;

/// The word for the type of an element.
pub(crate) fn type_word(of: ElementType) -> &'static str
    ensures { result.now ≡ type_word of }
{
    match of {
        ElementType::Simple(of) => element_name(of),
        ElementType::SystemType => "type",
    }
}

/// The word for what a named argument sets.
pub(crate) fn member_word(member: Member) -> &'static str
    ensures { result.now ≡ member_word member }
{
    match member {
        Member::Field => "field",
        Member::Property => "property",
    }
}
