//! Looks for the structures that contain a byte.
ghost use Rattle.std.specs.Prelude.{◌≡◌, ◌∷◌, [], ◌++◌, IfOk, None, Some, map};
ghost use Rattle.cli_regions.specs.Kept.{Adds, Joins, name_text, seen, seen_what};
ghost use Rattle.cli_regions.specs.Regions.{field_region, field_what, has_byte, region};

use cli_faults::{Escaped, EscapedBytes};
use root::Kind;
use schema::TableCell;
use std::alloc::{AllocError, Global};
use std::fmt;
use std::marker::Model;
use table_schema::TableId;

/// The name of a structure. It follows a word.
#[derive(Clone, Copy)]
pub enum Name<'a> {
    /// There is no name.
    Empty,
    /// A name of the standard.
    Plain(&'static str),
    /// A text of the file.
    Text(&'a str),
    /// The number of a section from 1, and its name.
    Section(u64, &'a [u8]),
    /// A table.
    Table(TableId),
}

impl fmt::Display for Name<'_> {
    ghost output = { λ name. Some (name_text name) };

    fn fmt<W: fmt::Write>(&self, f: &mut fmt::Formatter<W>) -> fmt::Result {
        match self {
            Name::Empty => Ok(()),
            Name::Plain(name) => write!(f, " {name}"),
            Name::Text(name) => write!(f, " {}", Escaped(name)),
            Name::Section(number, name) if name.is_empty() => write!(f, " {number}"),
            Name::Section(number, name) => write!(f, " {number} {}", EscapedBytes(name)),
            Name::Table(table) => write!(f, " {:02X} {}", table.number(), table.name()),
        }
    }
}

/// What a structure is.
#[derive(Clone, Copy)]
pub enum What<'a> {
    /// A header, a field, a section or a stream: a word and a name.
    Words(&'static str, Name<'a>),
    /// A field of a header, or a row count, that is one number.
    Scalar(&'static str, Name<'a>),
    /// A cell (II.22).
    Cell(TableCell),
    /// The entry of a heap that a cell refers to (II.24.2.3 to II.24.2.5).
    Entry(Kind, TableCell),
    /// The user string with this token (II.24.2.4, III.1.9).
    UserString(u32),
}

/// A structure: a range of bytes of a file.
#[derive(Clone, Copy)]
pub struct Structure<'a> {
    /// The offset of its first byte in the file.
    pub start: u64,
    /// Its number of bytes.
    pub size: u64,
    /// What it is.
    pub what: What<'a>,
}

/// What to look at of a section or a stream.
#[derive(Clone, Copy)]
pub(crate) enum Part {
    /// Its header.
    Header,
    /// Its bytes.
    Bytes,
}

/// The size of the longest field that is one number, in bytes. A longer one is a name, an address and a size, or bits.
const LONGEST_NUMBER: u64 = 4;

/// What a field of a size is.
fn field_what<'a>(word: &'static str, name: Name<'a>, size: u64) -> What<'a>
    ensures { seen_what result ≡ field_what size (word.now ++ name_text name.entry) }
{
    if size <= LONGEST_NUMBER {
        What::Scalar(word, name)
    } else {
        What::Words(word, name)
    }
}

/// Whether a structure contains the byte at an offset.
pub fn has_byte(start: u64, size: u64, offset: u64) -> bool
    ensures { result ≡ has_byte start size offset }
{
    start <= offset && offset - start < size
}

/// A search for the structures that contain the byte at an offset. It remembers whether memory ran out.
#[derive(Drop)]
pub struct Search<'a> {
    offset: u64,
    found: Vec<Structure<'a>>,
    failed: bool,
}

impl<'a> Model for Search<'a> {
    ghost use Rattle.std.specs.Prelude.{map};
    ghost use Rattle.cli_regions.specs.Kept.{Searched, found_unless, seen};

    ghost Value = { Searched };

    ghost view = { λ a. record { offset = a.offset; found = found_unless a.failed (map seen a.found.items) } };
}

impl<'a> Search<'a> {
    /// A search that has found nothing yet.
    pub fn new(alloc: Global, offset: u64) -> Search<'a>
        ensures { result ≡ record { offset = offset; found = Some [] } }
    {
        Search {
            offset,
            found: Vec::new(alloc),
            failed: false,
        }
    }

    /// The offset of the byte.
    pub fn offset(&self) -> u64
        ensures { result ≡ self.now.offset }
    {
        self.offset
    }

    /// The allocator of what is kept.
    pub fn alloc(&self) -> Global {
        *self.found.allocator()
    }

    /// Keeps a structure that contains the byte.
    pub fn keep(&mut self, structure: Structure<'a>)
        ensures { Joins self.old self.new (seen structure.entry ∷ []) }
    {
        if self.found.push(structure).is_err() {
            self.failed = true;
        }
    }

    /// Notes that memory ran out.
    pub fn fail(&mut self)
        ensures { self.new ≡ record { offset = self.old.offset; found = None } }
    {
        self.failed = true;
    }

    /// Keeps a structure if it contains the byte.
    pub fn look_at(&mut self, structure: Structure<'a>)
        ensures { Adds self.old self.new (seen structure.entry ∷ []) }
    {
        if has_byte(structure.start, structure.size, self.offset()) {
            self.keep(structure);
        }
    }

    /// Keeps a structure with a word and a name if it contains the byte.
    pub(crate) fn look(&mut self, start: u64, size: u64, word: &'static str, name: Name<'a>)
        ensures { Adds self.old self.new (region start size (word.now ++ name_text name.entry) ∷ []) }
    {
        let what = What::Words(word, name);
        self.look_at(Structure { start, size, what });
    }

    /// Keeps a field with a word and a name if it contains the byte.
    pub(crate) fn look_field(&mut self, start: u64, size: u64, word: &'static str, name: Name<'a>)
        ensures { Adds self.old self.new (field_region start size (word.now ++ name_text name.entry) ∷ []) }
    {
        let what = field_what(word, name, size);
        self.look_at(Structure { start, size, what });
    }

    /// The structures that were found, in the order of the search.
    ///
    /// # Errors
    ///
    /// Only if out of memory.
    pub fn finish(self) -> Result<Vec<Structure<'a>>, AllocError>
        ensures { IfOk result (λ found. self.entry.found ≡ Some (map seen found.items)) }
    {
        if self.failed {
            return Err(AllocError);
        }
        Ok(self.found)
    }
}
