ghost use Rattle.std.specs.Prelude.{OnOk};
ghost use Rattle.metadata.specs.Metadata.{Metadata};
ghost use Rattle.full_names.specs.Names.{Wrote};
ghost use Rattle.full_names.specs.Texts.{IsInnerName};

use crate::limit::Limit;
use crate::names::{DEPTH, write_type_def_within};
use crate::parts::write_left_out;
use crate::scopes::write_type_ref_name;
use crate::signature_text::WriteNames;
use crate::text_error::TextError;
use navigation::ReadCells;
use std::fmt;
use table_schema::{TableId, Token};

/// Writes the text of a token within the text of a TypeSpec. `..` stands for a TypeSpec, which may be the same one, and
/// for a row that does not exist.
fn write_inner_name<S: ReadCells, W: fmt::Write, L: Limit<W>>(
    source: &S,
    token: Token,
    limit: &L,
    out: &mut W,
) -> fmt::Result
    ensures { (model : Metadata) → S.shows source.now model
        → OnOk result (Wrote W.write_str_gives out.old (IsInnerName L.scopes model token) out.new) }
{
    source.holds_one();
    if token.row == 0 || token.row > source.count(token.table) {
        return write_left_out(out);
    }
    match token.table {
        TableId::TypeDef => write_type_def_within(source, token.row, limit, out, DEPTH),
        TableId::TypeRef => write_type_ref_name(source, token.row, limit, out),
        _ => write_left_out(out),
    }
}

/// The names of types in the text of a TypeSpec.
#[derive(Clone, Copy)]
pub struct InnerNames;

impl<S: ReadCells, W: fmt::Write, L: Limit<W>> WriteNames<S, W, L> for InnerNames {
    ghost use Rattle.full_names.specs.Texts.{IsInnerName};

    ghost is_name = { λ model token text. IsInnerName L.scopes model token text };

    fn write_token(
        &self,
        source: &S,
        token: Token,
        limit: &L,
        out: &mut W,
    ) -> Result<(), TextError> {
        Ok(write_inner_name(source, token, limit, out)?)
    }
}
