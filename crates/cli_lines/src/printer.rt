//! Prints lines.
ghost use Rattle.std.specs.Prelude.{◌≡◌, ◌∷◌, ◌++◌, [], ℕ, IfErr, IsSome, List, None, OnOk, Option, map};
ghost use Rattle.cli_faults.specs.Status.{IsOutput};
ghost use Rattle.cli_lines.specs.Lines.{Part as ThePart, line_from, style};
ghost use Rattle.cli_lines.specs.Printed.{Adds, Asked, Begins, Ends, Moves, Prints, SendsOrFails, waits};
ghost use Rattle.cli_sending.specs.Sent.{SendsPrefix, Sent};
ghost use Rattle.cli_lines.specs.Shown.{shown, shown_file};

use crate::line::{Before, push_end, push_lead, push_part};
use crate::parts::{Form, Part};
use cli_faults::Failure;
use cli_sending::{finish, send};
use std::alloc::Global;
use std::io::{self, ErrorKind, Write};
use std::marker::Model;

/// The number of waiting bytes from which they are sent.
const FULL: usize = 1 << 16;

/// Prints lines in a form. It sends them to a writer, many at a time. It keeps its first failure, and takes nothing from
/// then on. Its memory is that of the longest line, and of the lines that wait to be sent.
pub struct Printer<'o, W: Write> {
    form: Form,
    file: Option<&'o str>,
    waiting: Vec<u8>,
    at: Before,
    stopped: Option<ErrorKind>,
    out: &'o mut W,
}

impl<'o, W: Write> Model for Printer<'o, W> {
    ghost use Rattle.cli_lines.specs.Lines.{style};
    ghost use Rattle.cli_lines.specs.Printed.{Printed, waits};
    ghost use Rattle.cli_lines.specs.Shown.{shown_file};

    ghost Value = { Printed W };

    ghost view = { λ a. record { style = style a.form (shown_file a.file); borrow = a.out.ghost_name; out = a.out.now; contents = W.contents a.out.now; waiting = waits a.waiting.items a.stopped; at = a.at } };
}

impl<'o, W: Write> Printer<'o, W> {
    /// A printer that has printed nothing.
    pub fn new(alloc: Global, form: Form, out: &'o mut W) -> Printer<'o, W>
        ensures style { result.style ≡ style form None }
        ensures borrow { result.borrow ≡ out.entry.ghost_name }
        ensures out { result.out ≡ out.old }
        ensures asked { Asked (W.contents out.old) result [] }
    {
        Printer::named(alloc, form, None, out)
    }

    /// A printer that begins each line with the name of a file, if there is one: `FILE: `, or the member `file`.
    pub fn named(alloc: Global, form: Form, file: Option<&'o str>, out: &'o mut W) -> Printer<'o, W>
        ensures style { result.style ≡ style form (shown_file file.entry) }
        ensures borrow { result.borrow ≡ out.entry.ghost_name }
        ensures out { result.out ≡ out.old }
        ensures asked { Asked (W.contents out.old) result [] }
    {
        Printer {
            form,
            file,
            waiting: Vec::new(alloc),
            at: Before::Line,
            stopped: None,
            out,
        }
    }

    /// The form of the lines.
    pub fn form(&self) -> Form
        ensures { result ≡ self.now.style.form }
    {
        self.form
    }

    /// Prints a line.
    pub fn line(&mut self, parts: &[Part<'_>])
        ensures { Prints self.old self.new (map shown parts.now ∷ []) }
    {
        self.begin(parts);
        self.end();
    }

    /// Begins a line with these parts.
    #[tactic(auto, using(crate::proofs::PrintedLemmas::begins_more))]
    pub fn begin(&mut self, parts: &[Part<'_>])
        ensures { Begins self.old self.new (map shown parts.now) }
    {
        self.start();
        self.parts(parts);
    }

    /// Begins a line that has no parts yet: with the name of the file, if there is one.
    #[inline]
    pub fn start(&mut self)
        ensures { Begins self.old self.new [] }
    {
        match self.stopped {
            Some(_) => {}
            None => match push_lead(self.form, self.file, &mut self.waiting) {
                Ok(()) => self.at = Before::Line,
                Err(_) => self.stopped = Some(ErrorKind::OutOfMemory),
            },
        }
    }

    /// Adds parts to the line that was begun.
    #[inline(always)]
    pub fn parts(&mut self, parts: &[Part<'_>])
        ensures { Adds self.old self.new (map shown parts.now) }
    {
        for part in parts {
            self.part(part);
        }
    }

    /// Adds a part to the line that was begun.
    #[inline(always)]
    pub fn part(&mut self, part: &Part<'_>)
        ensures { Adds self.old self.new (shown part.now ∷ []) }
    {
        match self.stopped {
            Some(_) => {}
            None => match push_part(self.form, self.file, self.at, part, &mut self.waiting) {
                Ok(at) => self.at = at,
                Err(_) => self.stopped = Some(ErrorKind::OutOfMemory),
            },
        }
    }

    /// Ends the line that was begun.
    pub fn end(&mut self)
        ensures { Ends self.old self.new }
    {
        match self.stopped {
            Some(_) => {}
            None => match end_line(self.form, self.at, &mut self.waiting, self.out) {
                Ok(()) => {}
                Err(error) => self.stopped = Some(error.kind()),
            },
        }
    }

    /// Fails, because memory ran out.
    pub fn fail(&mut self)
        ensures parts { (parts : List ThePart) → Adds self.old self.new parts }
        ensures lines { (lines : List (List ThePart)) → Prints self.old self.new lines }
        ensures stopped { self.new.waiting ≡ None }
    {
        match self.stopped {
            Some(_) => {}
            None => self.stopped = Some(ErrorKind::OutOfMemory),
        }
    }

    /// Sends what waits, and flushes the writer. Returns the writer and the first failure: out of memory, or that the
    /// output cannot be written.
    pub fn finish(self) -> (&'o mut W, Result<(), Failure<'static>>)
        ensures borrow { result.0.ghost_name ≡ self.entry.borrow }
        ensures sent { (start : Option (List ℕ)) (text : List ℕ) → Asked start self.entry text → Sent start (W.contents result.0.now) result.1 text }
        // If it was asked to print nothing, nothing went out.
        ensures nothing { (start : Option (List ℕ)) (text : List ℕ) → Asked start self.entry [] → SendsPrefix start (W.contents result.0.now) text }
        ensures failed { IfErr result.1 IsOutput }
        // If it succeeds, printing had not failed.
        ensures complete { OnOk result.1 (IsSome self.entry.waiting) }
    {
        let Printer {
            form: _,
            file: _,
            waiting,
            at: _,
            stopped,
            out,
        } = self;
        let outcome = finish_unless(stopped, &waiting, out);
        (out, cli_faults::printed(outcome))
    }

    /// Sends nothing more, and returns the writer as it is. If nothing was printed, it is as it was before.
    pub fn cancel(self) -> &'o mut W
        ensures borrow { result.ghost_name ≡ self.entry.borrow }
        ensures out { result.now ≡ self.entry.out }
    {
        let Printer {
            form: _,
            file: _,
            waiting: _,
            at: _,
            stopped: _,
            out,
        } = self;
        out
    }
}

/// Ends a line, and sends the lines that wait if they are many.
fn end_line<W: Write>(form: Form, at: Before, waiting: &mut Vec<u8>, out: &mut W) -> io::Result<()>
    ensures { (file : Option (List ℕ)) → Moves (W.contents out.old) (W.contents out.new) result (waiting.old.items ++ line_from (style form file) at []) waiting.new.items }
{
    push_end(form, at, waiting)?;
    send_full(waiting, out)
}

/// Sends the waiting lines if they are many.
fn send_full<W: Write>(lines: &mut Vec<u8>, out: &mut W) -> io::Result<()>
    ensures { Moves (W.contents out.old) (W.contents out.new) result lines.old.items lines.new.items }
{
    if lines.len() < FULL {
        return Ok(());
    }
    send(lines, out)?;
    lines.clear();
    Ok(())
}

/// Sends the lines that wait, and flushes the writer, unless printing failed.
fn finish_unless<W: Write>(
    stopped: Option<ErrorKind>,
    waiting: &[u8],
    out: &mut W,
) -> io::Result<()>
    ensures sent { (start : Option (List ℕ)) (text : List ℕ) → SendsOrFails start (W.contents out.old) text (waits waiting.now stopped)
        → Sent start (W.contents out.new) result text }
    ensures complete { OnOk result (IsSome (waits waiting.now stopped)) }
{
    match stopped {
        Some(kind) => Err(io::Error::from(kind)),
        None => finish(waiting, out),
    }
}
