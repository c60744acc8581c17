ghost use Rattle.std.specs.Prelude.{◌≡◌, length};
ghost use Rattle.c_texts.specs.Explained.{explanation_text, label_before, space_before, text_in, three_digits};
ghost use Rattle.c_texts.specs.Texts.{counted, with_text};

use crate::parts::write_parts;
use cli_faults::Explanation;
use packed::Fault;

/// The three decimal digits of a rule's number.
fn digits(number: u16) -> [u8; 3]
    ensures { result ≡ three_digits number }
{
    [
        b'0' + (number / 100 % 10) as u8,
        b'0' + (number / 10 % 10) as u8,
        b'0' + (number % 10) as u8,
    ]
}

/// A text and the label before it; two empty texts if there is none.
fn item(label: &'static str, text: Option<&'static str>) -> (&'static str, &'static str)
    ensures { (result.0.now ≡ label_before label.now text.entry) × (result.1.now ≡ text_in text.entry) }
{
    match text {
        Some(text) => (label, text),
        None => ("", ""),
    }
}

/// What is between the number of a rule and its name.
fn space_before(name: &str) -> &'static str
    ensures { result.now ≡ space_before name.now }
{
    if name.is_empty() { "" } else { " " }
}

/// Writes the text that explains a rule into a buffer, up to its length, and returns the length of the whole text: the
/// number and the name of the rule, what is wrong, and in lines of their own the rule, its section, where the offset of
/// a fault points, and the usual cause. The bytes after the text are unchanged.
pub fn write_explanation(explained: &Explanation, buffer: &mut [u8]) -> usize
    ensures bytes { buffer.new ≡ with_text buffer.old (explanation_text explained.now) }
    ensures length { result ≡ counted (length (explanation_text explained.now)) }
{
    let name = Fault::new(explained.code, 0).name();
    let (section_label, section) = item("\n- Section: ", explained.section);
    let (cause_label, cause) = item("\n- Usual cause: ", explained.cause);
    let parts = [
        &digits(explained.code.number()),
        space_before(name).as_bytes(),
        name.as_bytes(),
        b": ",
        explained.summary.as_bytes(),
        b"\n\n- Rule: ",
        explained.rule.as_bytes(),
        section_label.as_bytes(),
        section.as_bytes(),
        b"\n- Offset: ",
        explained.offset.as_bytes(),
        cause_label.as_bytes(),
        cause.as_bytes(),
        b"\n",
    ];
    write_parts(buffer, &parts)
}
