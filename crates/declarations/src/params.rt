//! The flags, the names and the marshalling of the parameters of a method, by their positions (II.22.17, II.22.33).
ghost use Rattle.std.specs.Prelude.{◌≡◌, ℕ, ◌+◌, ◌-◌, ◌≤◌, All, IfOk, IfSome, OnOk, filter};
ghost use Rattle.std.specs.Fmt.{WritesInCalls};
ghost use Rattle.std.specs.List.Sorted.{IsNonDecreasingBy};
ghost use Rattle.table_schema.specs.declared.table.TableId.TheVariants.{FieldMarshal, Param};
ghost use Rattle.metadata.specs.Cell.{bytes_in};
ghost use Rattle.metadata.specs.Metadata.{Metadata, cell_in};
ghost use Rattle.navigation.specs.declared.links.Link.TheVariants as link;
ghost use Rattle.navigation.specs.Linked.{first_linked};
ghost use Rattle.navigation.specs.Keyed.{has_key, key_of, keyed_rows};
ghost use Rattle.declarations.specs.Declarations.{AreLinksOf, param_token, position_in, spaced};

use crate::links::Links;
use full_names::{Limit, NameKind, write_name, write_text};
use metadata_source::rows_by_key;
use navigation::{KeyedRow, Link, ReadCells, cells, sort_by_key, with_key};
use reading::CellRef;
use std::alloc::{AllocError, Global};
use std::fmt;
use std::ops::Range;
use table_schema::{TableId, Token};

/// The cell of a parameter's flags (II.22.33).
const FLAGS: usize = 0;

/// The cell of a parameter's position (II.22.33).
const SEQUENCE: usize = 1;

/// The cell of a parameter's name (II.22.33).
const NAME: usize = 2;

/// The cell of a descriptor (II.22.17).
const DESCRIPTOR: usize = 1;

/// The first row of FieldMarshal that refers to a parameter; `None` if there is none. It is found by binary search if the
/// table is in order. Otherwise each row is looked at.
fn row_by_key<S: ReadCells>(source: &S, param: u32) -> Option<u32>
    requires { 1 ≤ param }
    ensures { (model : Metadata) → S.shows source.now model → result ≡ first_linked model link.Marshalling (param_token param) }
{
    metadata::laws::key_numbers_are_one();
    source.holds_one();
    let token = Token {
        table: TableId::Param,
        row: param,
    };
    let mut rows = rows_by_key(source, TableId::FieldMarshal, token);
    rows.next()
}

/// The same, by the references of a view if they are known.
fn marshal_row<S: ReadCells>(source: &S, links: Option<Links<'_>>, param: u32) -> Option<u32>
    requires first { 1 ≤ param }
    requires last { param ≤ S.row_count source.now Param }
    requires linked { ∥ ((model : Metadata) → S.shows source.now model → AreLinksOf model links) ∥₁ }
    ensures row { (model : Metadata) → S.shows source.now model → result ≡ first_linked model link.Marshalling (param_token param) }
    ensures there { IfSome result (λ row. (1 ≤ row) × (row ≤ S.row_count source.now FieldMarshal)) }
{
    source.holds_one();
    // The table has at most 0xFFFFFF rows.
    let _count = source.count(TableId::Param);
    let token = Token {
        table: TableId::Param,
        row: param,
    };
    match links {
        Some(of) => of.neighbours.first_linked(Link::Marshalling, token),
        None => row_by_key(source, param),
    }
}

/// The blob of a row of FieldMarshal.
#[tactic(auto, unfolding(table_schema::specs::CellColumns::cell_columns))]
fn blob<S: ReadCells>(source: &S, row: u32) -> &[u8]
    requires first { 1 ≤ row }
    requires last { row ≤ S.row_count source.now FieldMarshal }
    ensures { (model : Metadata) → S.shows source.now model → result.now ≡ bytes_in (cell_in model FieldMarshal row 1) }
{
    match source.cell(TableId::FieldMarshal, row, DESCRIPTOR) {
        CellRef::Bytes(blob) => blob,
        _ => &[],
    }
}

/// The rows of Param from one on to before another, each with its position.
#[tactic(auto, unfolding(table_schema::specs::CellColumns::cell_columns))]
fn read_positions<S: ReadCells>(
    alloc: Global,
    source: &S,
    first: u32,
    past: u32,
) -> Result<Vec<KeyedRow>, AllocError>
    requires first { 1 ≤ first }
    requires ordered { first ≤ past }
    requires last { past ≤ S.row_count source.now Param + 1 }
    ensures within { IfOk result (λ read. All (λ param. (1 ≤ param.row) × (param.row ≤ S.row_count source.now Param)) read.items) }
    ensures rows { (model : Metadata) → S.shows source.now model → IfOk result (λ read. read.items ≡ keyed_rows (position_in model) first (past - first)) }
{
    source.holds_one();
    let mut read = Vec::new(alloc);
    for row in first..past {
        let key = cells::number(source, TableId::Param, row, SEQUENCE);
        read.push(KeyedRow { key, row })?;
    }
    Ok(read)
}

/// The rows of Param of a method, in the order of their positions.
#[derive(Drop)]
pub struct Params<'s, S: ReadCells> {
    /// The metadata of the rows.
    pub source: &'s S,
    /// The rows that refer to the method and its parameters, if they are known.
    pub links: Option<Links<'s>>,
    rows: Vec<KeyedRow>,
    ghost linked: { ∥ ((model : Metadata) → S.shows source.now model → AreLinksOf model links) ∥₁ },
    ghost sorted: { IsNonDecreasingBy key_of rows.items },
    ghost within: { (key : ℕ) → All (λ param. (1 ≤ param.row) × (param.row ≤ S.row_count source.now Param)) (filter (has_key key) rows.items) },
}

impl<'s, S: ReadCells> Params<'s, S> {
    ghost use Rattle.std.specs.Prelude.{◌≡◌, ◌≤◌, ℕ, List, IfOk, IfSome, option_map};
    ghost use Rattle.metadata.specs.Metadata.{Metadata};
    ghost use Rattle.table_schema.specs.declared.table.TableId.TheVariants.{Param};
    ghost use Rattle.declarations.specs.Declarations.{AreLinksOf, AreParams, IsFlagsOf, IsMarshalOf, IsNameOf, IsParamRow, IsParamText, marshalled, spaced};
    ghost use Rattle.type_heads.specs.FlagWords.{leading_words, words_of};
    ghost use Rattle.type_heads.specs.declared.flag_words.FlagTable.TheVariants as table;

    /// Sorts the rows of Param from one on to before another by their positions. It fails only if out of memory.
    pub fn new(
        alloc: Global,
        source: &'s S,
        links: Option<Links<'s>>,
        rows: Range<u32>,
    ) -> Result<Params<'s, S>, AllocError>
        requires linked { ∥ ((model : Metadata) → S.shows source.now model → AreLinksOf model links) ∥₁ }
        ensures source { IfOk result (λ params. params.source.now ≡ source.now) }
        ensures links { IfOk result (λ params. params.links ≡ links.entry) }
        ensures rows { (model : Metadata) → S.shows source.now model → IfOk result (λ params. AreParams model rows.start rows.«end» params.rows.items) }
    {
        source.holds_one();
        let past = rows.end.min(source.count(TableId::Param) + 1).max(1);
        let first = rows.start.max(1).min(past);
        let mut found = read_positions(alloc, source, first, past)?;
        sort_by_key(&mut found)?;
        Ok(Params {
            source,
            links,
            rows: found,
        })
    }

    /// The first row of Param with a position; `None` if there is none. It is found by binary search.
    fn row(&self, position: u32) -> Option<u32>
        ensures first { IfSome result (λ row. 1 ≤ row) }
        ensures last { IfSome result (λ row. row ≤ S.row_count self.now.source.now Param) }
        ensures row { (model : Metadata) → S.shows self.now.source.now model → (first past : ℕ) → AreParams model first past self.now.rows.items
            → IsParamRow model first past position result }
    {
        self.source.holds_one();
        match with_key(&self.rows, position).get(0) {
            Some(param) => Some(param.row),
            None => None,
        }
    }

    /// The name of the parameter with a position; empty if there is none.
    #[tactic(auto, unfolding(table_schema::specs::CellColumns::cell_columns))]
    pub fn name(&self, position: u32) -> &str
        ensures { (model : Metadata) → S.shows self.now.source.now model → (first past : ℕ) → AreParams model first past self.now.rows.items
            → IsParamText IsNameOf model first past position (spaced result.now) }
    {
        match self.row(position) {
            Some(row) => cells::text(self.source, TableId::Param, row, NAME),
            None => "",
        }
    }

    /// The blob of how the parameter with a position is marshalled; `None` if it is not. The result has position 0.
    pub fn descriptor(&self, position: u32) -> Option<&[u8]>
        ensures { (model : Metadata) → S.shows self.now.source.now model → (first past : ℕ) → AreParams model first past self.now.rows.items
            → (space : List ℕ → List ℕ) → IsParamText (IsMarshalOf space) model first past position (marshalled space (option_map (λ blob. blob.now) result)) }
    {
        let param = self.row(position)?;
        let row = marshal_row(self.source, self.links, param)?;
        Some(blob(self.source, row))
    }

    /// The flags of the parameter with a position; 0 if there is none.
    #[tactic(auto, unfolding(table_schema::specs::CellColumns::cell_columns))]
    pub fn flags(&self, position: u32) -> u32
        ensures { (model : Metadata) → S.shows self.now.source.now model → (first past : ℕ) → AreParams model first past self.now.rows.items
            → IsParamText IsFlagsOf model first past position (leading_words result (words_of table.Param)) }
    {
        match self.row(position) {
            Some(row) => cells::number(self.source, TableId::Param, row, FLAGS),
            None => 0,
        }
    }
}

/// Writes a space and a name, unless the name is empty.
pub fn write_spaced<W: fmt::Write, L: Limit<W>>(out: &mut W, name: &str, limit: &L) -> fmt::Result
    ensures { OnOk result (WritesInCalls W.write_str_gives out.old (spaced name.now) out.new) }
{
    if name.is_empty() {
        return Ok(());
    }
    write_text(out, " ")?;
    write_name(out, NameKind::Identifier, name, limit)
}
