//! What an outline is printed from, and what is shown of it.
ghost use Rattle.std.proofs.Props.{props};
ghost use Rattle.std.specs.Prelude.{◌≡◌, IfOk, IfSome};
ghost use Rattle.cli_names.specs.Orders.{AreRowsIn};
ghost use Rattle.cli_names.specs.Shown.{asked};

use crate::orders::{TableOrder, rows_of};
use navigation::{Link, Neighbours};
use opening::{TableId, Token, View};
use std::alloc::{AllocError, Global};
use visible_rows::VisibleRows;

/// Whether a line of text ends with the token of its row.
#[derive(Clone, Copy, Default, PartialEq, Eq)]
pub enum Tokens {
    /// Each line of text ends with `  // ` and the token.
    #[default]
    Shown,
    /// No line of text has the token. In JSON Lines the member `token` stays.
    Hidden,
}

/// Which rows have a line.
#[derive(Clone, Copy, Default, PartialEq, Eq)]
pub enum Rows {
    /// All rows.
    #[default]
    All,
    /// Those that are visible outside of the assembly.
    Visible,
}

/// In which order the lines stand.
#[derive(Clone, Copy, Default, PartialEq, Eq)]
pub enum Sorting {
    /// That of the rows.
    #[default]
    ByRow,
    /// That of the names of the rows, and of one name that of the declarations: it does not depend on the order of the rows.
    ByName,
}

/// What an outline shows.
#[derive(Clone, Copy, Default, PartialEq, Eq)]
pub struct OutlineOptions {
    /// Whether lines of text have tokens.
    pub tokens: Tokens,
    /// Which rows have a line.
    pub rows: Rows,
    /// In which order they stand.
    pub sorting: Sorting,
    /// The method or the file that the program starts in (II.25.3.3.2), if it is known. Its line says so.
    pub entry: Option<Token>,
}

/// A view with what finds the neighbours of its rows, and what is shown of it.
#[derive(Drop)]
pub struct Source<'v, 'a> {
    /// The view.
    pub neighbours: Neighbours<'v, 'a>,
    /// What is shown.
    pub options: OutlineOptions,
    /// The rows that are visible outside of the assembly, unless all rows are shown.
    visible: Option<VisibleRows<'v, 'a>>,
    /// The orders of the rows of tables, by the indexes of these.
    pub orders: Vec<TableOrder>,
    ghost same_view: { IfSome visible (λ rows. rows.view.now ≡ neighbours.view.now) } by { Prim.hlevel props },
    ghost asked: { options.rows ≡ asked visible },
    ghost within: { AreRowsIn neighbours.view.now orders.items },
}

/// The visible rows of a view, if only these are shown.
///
/// # Errors
///
/// Out of memory.
fn known_rows<'v, 'a>(
    alloc: Global,
    neighbours: &Neighbours<'v, 'a>,
    rows: Rows,
) -> Result<Option<VisibleRows<'v, 'a>>, AllocError>
    ensures view { IfOk result (λ visible. IfSome visible (λ known. known.view.now ≡ neighbours.now.view.now)) }
    ensures asked { IfOk result (λ visible. rows ≡ asked visible) }
{
    match rows {
        Rows::All => Ok(None),
        Rows::Visible => Ok(Some(VisibleRows::new(alloc, neighbours)?)),
    }
}

impl<'v, 'a> Source<'v, 'a> {
    ghost use Rattle.std.specs.Prelude.{◌≡◌, ◌≤◌, [], IfOk};
    ghost use Rattle.metadata.specs.Metadata.{Metadata};
    ghost use Rattle.metadata.specs.Model.{IsModel};
    ghost use Rattle.opening.specs.Views.{row_count};
    ghost use Rattle.cli_names.specs.Orders.{order_in, row_at};
    ghost use Rattle.cli_names.specs.Shown.{has_line, is_shown};

    /// What the outline of a view is printed from, in the order of the rows.
    ///
    /// # Errors
    ///
    /// Out of memory.
    pub fn new(
        alloc: Global,
        view: &'v View<'a>,
        options: OutlineOptions,
    ) -> Result<Source<'v, 'a>, AllocError>
        ensures view { IfOk result (λ source. source.neighbours.view.now ≡ view.now) }
        ensures options { IfOk result (λ source. source.options ≡ options) }
        ensures orders { IfOk result (λ source. source.orders.items ≡ []) }
    {
        let neighbours = Neighbours::new(alloc, view)?;
        let visible = known_rows(alloc, &neighbours, options.rows)?;
        Ok(Source {
            neighbours,
            options,
            visible,
            orders: Vec::new(alloc),
        })
    }

    /// The row at a position of the order. Positions begin at one.
    pub fn row_at(&self, table: TableId, position: u32) -> u32
        requires first { 1 ≤ position }
        requires last { position ≤ row_count self.now.neighbours.view.now table }
        ensures row { result ≡ row_at (order_in self.now.orders.items table) position }
        ensures first { 1 ≤ result }
        ensures last { result ≤ row_count self.now.neighbours.view.now table }
    {
        match rows_of(&self.orders, table).get(position as usize - 1) {
            Some(row) => *row,
            None => position,
        }
    }

    /// Whether a row has a line of its own: of parameters only those with a default value (II.22.9).
    pub fn has_line(&self, token: Token) -> bool
        requires { token.row ≤ row_count self.now.neighbours.view.now token.table }
        ensures { (model : Metadata) → IsModel self.now.neighbours.view.now model → result ≡ has_line model token.table token.row }
    {
        match token.table {
            TableId::Param => {
                // The table has at most 0xFFFFFF rows.
                let _count = self.neighbours.view.count(TableId::Param);
                self.neighbours
                    .first_linked(Link::Constants, token)
                    .is_some()
            }
            _ => true,
        }
    }

    /// Whether a row has a line.
    pub fn shows(&self, token: Token) -> bool
        requires first { 1 ≤ token.row }
        requires last { token.row ≤ row_count self.now.neighbours.view.now token.table }
        ensures { (model : Metadata) → IsModel self.now.neighbours.view.now model → result ≡ is_shown self.now.options model token }
    {
        self.has_line(token)
            && match &self.visible {
                Some(rows) => rows.is_visible(&self.neighbours, token),
                None => true,
            }
    }
}
