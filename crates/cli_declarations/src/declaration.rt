//! The declaration of a row.
ghost use Rattle.std.specs.Prelude.{◌≡◌, ◌≤◌, ◌∷◌, ◌++◌, ℕ, List, string_bytes, OnOk};
ghost use Rattle.cli_declarations.specs.Words.{Metadata, IsModel, row_count};
ghost use Rattle.cli_declarations.specs.Layouts.{IsDeclared, is_declared_in};
ghost use Rattle.cli_declarations.specs.Parts.{IsNameText};
ghost use Rattle.cli_declarations.specs.Texts.{Gains};

use crate::declared::{Declared, Pushed, push_plain};
use crate::layouts::pieces_of;
use crate::pieces::{push_name, push_piece};
use navigation::Neighbours;
use opening::{TableId, Token};
use std::alloc::AllocError;

/// Whether the rows of a table have declarations.
pub fn is_declared_in(table: TableId) -> bool
    ensures { result ≡ is_declared_in table }
{
    !pieces_of(table).is_empty()
}

/// Appends the declaration of a row: the pieces of its line.
fn push_pieces(source: &Neighbours<'_, '_>, token: Token, declared: &mut Declared) -> Pushed
    requires first { 1 ≤ token.row }
    requires last { token.row ≤ row_count source.now.view.now token.table }
    ensures { (model : Metadata) → IsModel source.now.view.now model → OnOk result (Gains (IsDeclared model token) declared.old declared.new) }
{
    for piece in pieces_of(token.table) {
        push_piece(source, token.table, token.row, *piece, declared)?;
    }
    Ok(())
}

/// Makes a text the declaration of a row. That of a row of a table whose rows are not declared is empty.
///
/// # Errors
///
/// Out of memory. The text is unspecified then.
pub fn declare(
    source: &Neighbours<'_, '_>,
    token: Token,
    declared: &mut Declared,
) -> Result<(), AllocError>
    requires first { 1 ≤ token.row }
    requires last { token.row ≤ row_count source.now.view.now token.table }
    ensures { (model : Metadata) → IsModel source.now.view.now model → OnOk result (IsDeclared model token (string_bytes declared.new.text)) }
{
    declared.clear();
    push_pieces(source, token, declared)
}

/// Makes a text the name of a row (II.5.3), as it stands in declarations.
///
/// # Errors
///
/// Out of memory. The text is unspecified then.
pub fn name_row(
    source: &Neighbours<'_, '_>,
    token: Token,
    declared: &mut Declared,
) -> Result<(), AllocError>
    ensures { (model : Metadata) → IsModel source.now.view.now model → OnOk result (IsNameText model token (string_bytes declared.new.text)) }
{
    declared.clear();
    push_name(source, token, declared)
}

/// Makes a text the name of a row, a zero byte, and its declaration, by which rows can be put in order.
///
/// # Errors
///
/// Out of memory. The text is unspecified then.
pub fn name_and_declare(
    source: &Neighbours<'_, '_>,
    token: Token,
    declared: &mut Declared,
) -> Result<(), AllocError>
    requires first { 1 ≤ token.row }
    requires last { token.row ≤ row_count source.now.view.now token.table }
    ensures { (model : Metadata) → IsModel source.now.view.now model → OnOk result ((name text : List ℕ) × IsNameText model token name × IsDeclared model token text
        × (string_bytes declared.new.text ≡ name ++ 0 ∷ text)) }
{
    name_row(source, token, declared)?;
    push_plain("\0", declared)?;
    push_pieces(source, token, declared)
}
