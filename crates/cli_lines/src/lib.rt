//! Prints reports: lines of text, or JSON Lines (RFC 8259).
//!
//! A report is a list of lines, and a line is a list of [`Part`]s. A part is a word, which only a line of text has; a
//! member, which only JSON has; or a field, which is a value in a line of text and a member in JSON. `specs/Lines.antt`
//! defines the text of a report in each form. A [`Printer`] takes lines, and sends them to a writer. It keeps its first
//! failure, and takes nothing from then on, so that its callers have no errors to pass on. [`Printer::finish`] returns
//! the failure.
//!
//! ```text
//! let mut out = Printer::new(rt.alloc(), Form::Text, &mut stdout);
//! out.line(&[Word("size "), Field(Name::Size, Number(12))]); // `size 12`, or `{"size":12}`
//! let (_, sent) = out.finish();
//! ```
#![tactic(auto)]

mod json_line;
mod json_texts;
mod json_units;
pub mod laws;
mod line;
mod names;
mod parts;
mod printer;
mod texts;

pub use names::{Name, cell_label};
pub use parts::{Form, Part, Value};
pub use printer::Printer;
pub use texts::push_token;
