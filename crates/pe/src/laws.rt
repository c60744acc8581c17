ghost use Rattle.std.specs.Prelude.{◌≡◌, ℕ, List};
ghost use Rattle.packed.specs.Rule.{AllHold};
ghost use Rattle.pe.specs.Rules.{rules_of_image};
ghost use Rattle.pe.specs.Headers.{image_of};
ghost use Rattle.pe.specs.Image.{Image, IsImage};

/// An image satisfies all rules and has the values of its headers. A file that satisfies all rules is
/// an image with the values of its headers.
pub fn images_are_read()
    ensures rules_hold { (file : List ℕ) (image : Image) → IsImage file image → AllHold (rules_of_image file) }
    ensures said { (file : List ℕ) (image : Image) → IsImage file image → image ≡ image_of file }
    ensures sound { (file : List ℕ) → AllHold (rules_of_image file) → IsImage file (image_of file) }
{
    packed::laws::fields_are_parts();
}
