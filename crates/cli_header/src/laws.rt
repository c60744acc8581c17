ghost use Rattle.std.specs.Prelude.{◌≡◌};
ghost use Rattle.packed.specs.Rule.{AllHold};
ghost use Rattle.pe.specs.Image.{Image};
ghost use Rattle.cli_header.specs.declared.header.CliHeader.{CliHeader as Header};
ghost use Rattle.cli_header.specs.Rules.{rules_of_cli_header};
ghost use Rattle.cli_header.specs.Header.{IsCliHeader};
ghost use Rattle.cli_header.specs.Said.{header_of};

/// An image with a CLI header satisfies all rules, and the header has the values of its bytes. An image
/// that satisfies all rules has a CLI header with the values of its bytes.
pub fn headers_are_read()
    ensures rules_hold { (image : Image) (header : Header) → IsCliHeader image header → AllHold (rules_of_cli_header image) }
    ensures said { (image : Image) (header : Header) → IsCliHeader image header → header ≡ header_of image }
    ensures sound { (image : Image) → AllHold (rules_of_cli_header image) → IsCliHeader image (header_of image) }
{
    packed::laws::fields_are_parts();
}
