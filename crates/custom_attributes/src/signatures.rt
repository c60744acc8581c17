//! The types of the parameters of a constructor, from the items of its signature (II.23.2.1, II.23.2.2).
ghost use Rattle.std.specs.Prelude.{◌≡◌, ◌≤◌, ◌<◌, ◌∷◌, false, length, List, option_and_then};
ghost use Rattle.table_schema.specs.declared.column.ColumnKind.TheVariants.{Signature};
ghost use Rattle.table_schema.specs.CellColumns.{cell_count};
ghost use Rattle.sig_grammar.specs.Syntax.{Body};
ghost use Rattle.sig_grammar.specs.Encodes.{Encodes};
ghost use Rattle.sig_items.specs.declared.item.Item.{Item as TheItem};
ghost use Rattle.sig_items.specs.ItemsOf.{items_of};
ghost use Rattle.metadata.specs.Metadata.{Metadata, cell_in};
ghost use Rattle.metadata.specs.Valid.{kind_at};
ghost use Rattle.custom_attributes.specs.Signatures.{is_method, is_void, items_in};
ghost use Rattle.custom_attributes.specs.Params.{argument_type, begins_vector, element_type, if_few, is_vector, params_from, params_in, params_of_constructor, preceded};

use crate::enums::enum_type;
use crate::params::Params;
use crate::read_view::ReadView;
use crate::system_types::is_system_type;
use blob_values::{ArgumentType, ElementType};
use opening::{CellRef, TableId, Token};
use sig_items::{Item, Items};
use table_schema::SigKind;

/// The index of the cell with the signature of a method (II.22.26).
const METHOD_SIGNATURE: usize = 4;

/// The index of the cell with the signature of a MemberRef (II.22.25).
const MEMBER_SIGNATURE: usize = 2;

/// No signature with a head, a result and the items of 64 parameters, at most two each, has more bytes: each item has at most
/// 64.
const LONGEST: usize = 8320;

/// Whether an item is the head of a method.
fn is_method(item: Item) -> bool
    ensures { result ≡ is_method item }
{
    matches!(item, Item::Method(_))
}

/// Whether an item is VOID.
fn is_void(item: Item) -> bool
    ensures { result ≡ is_void item }
{
    matches!(item, Item::Void)
}

/// Whether an item is SZARRAY.
fn is_vector(item: Item) -> bool
    ensures { result ≡ is_vector item }
{
    matches!(item, Item::Vector)
}

/// Whether an item is the mark of an array before the type of its elements, which is not an array itself.
fn begins_vector(vector: bool, item: Item) -> bool
    ensures { result ≡ begins_vector vector item }
{
    !vector && is_vector(item)
}

/// The type of an element that an item stands for.
fn element_type<S: ReadView>(source: &S, item: Item) -> Option<ElementType>
    ensures { (model : Metadata) → S.shows source.now model → result ≡ element_type model item }
{
    match item {
        Item::Simple(of) => Some(ElementType::Simple(of)),
        Item::Class(of) if is_system_type(source, "Type", of) => Some(ElementType::SystemType),
        Item::Value(of) => {
            let of = enum_type(source, of)?;
            Some(ElementType::Simple(of))
        }
        _ => None,
    }
}

/// The type of an element, or of an array of such elements.
fn argument_type(vector: bool, of: ElementType) -> ArgumentType
    ensures { result ≡ argument_type vector of }
{
    if vector {
        ArgumentType::Vector(of)
    } else {
        ArgumentType::One(of)
    }
}

/// Reads the next item of parameters: the mark of an array, or the type of an element after one or without one. It appends
/// the parameter that ends there, and returns whether the next item is that of the elements of an array. `None` if the
/// parameter has no type, or there are too many.
#[tactic(auto, using(crate::proofs::ParamLemmas::vector_begun, crate::proofs::ParamLemmas::no_type, crate::proofs::ParamLemmas::no_room))]
fn put_item<S: ReadView>(source: &S, item: Item, vector: bool, params: &mut Params) -> Option<bool>
    requires { length params.old ≤ 64 }
    ensures few { length params.new ≤ 64 }
    ensures types { (model : Metadata) → S.shows source.now model → (later : List TheItem)
        → if_few (preceded params.old (params_from model vector (item ∷ later)))
        ≡ option_and_then (λ next. if_few (preceded params.new (params_from model next later))) result }
{
    if begins_vector(vector, item) {
        return Some(true);
    }
    let of = element_type(source, item)?;
    if params.is_full() {
        return None;
    }
    params.push(argument_type(vector, of));
    Some(false)
}

/// The types of the parameters that have these items.
fn params_from<S: ReadView>(source: &S, items: Items<'_>) -> Option<Params>
    ensures { (model : Metadata) → S.shows source.now model → result ≡ if_few (params_from model false items.entry) }
{
    let mut params = Params::none();
    let mut vector = false;
    for item in items {
        vector = put_item(source, item, vector, &mut params)?;
    }
    if vector { None } else { Some(params) }
}

/// The types of the parameters of a method without a result.
fn params_in<S: ReadView>(source: &S, mut items: Items<'_>) -> Option<Params>
    ensures { (model : Metadata) → S.shows source.now model → result ≡ params_in model items.entry }
{
    let head = items.next()?;
    let outcome = items.next()?;
    if is_method(head) && is_void(outcome) {
        params_from(source, items)
    } else {
        None
    }
}

/// The same of the signature in a blob. A longer one has too many items.
fn params_in_blob<S: ReadView>(source: &S, blob: &[u8], kind: SigKind) -> Option<Params>
    ensures { (model : Metadata) → S.shows source.now model → (signature : Body) → Encodes kind signature blob.now
        → result ≡ params_in model (items_of signature) }
{
    sig_grammar::laws::encoded_is_encodable();
    sig_items::laws::items_are_encoded();
    if blob.len() > LONGEST {
        return None;
    }
    match Items::of(blob, kind) {
        Some(items) => params_in(source, items),
        None => None,
    }
}

/// The same of the signature in a cell.
fn params_in_cell<S: ReadView>(
    source: &S,
    table: TableId,
    row: u32,
    cell: usize,
    kind: SigKind,
) -> Option<Params>
    requires first { 1 ≤ row }
    requires last { row ≤ S.row_count source.now table }
    requires cell { cell < cell_count table }
    requires kind { kind_at table cell ≡ Signature kind }
    ensures { (model : Metadata) → S.shows source.now model → result ≡ params_in model (items_in (cell_in model table row cell)) }
{
    match source.view().cell(table, row, cell) {
        CellRef::Sig(blob) => params_in_blob(source, blob, kind),
        _ => None,
    }
}

/// The types of the parameters of a constructor (II.22.10), which is a row of MethodDef or MemberRef. `None` if a parameter
/// has a type that values are not read of, if there are more than 64 parameters, and of a row that is no method without a
/// result.
#[tactic(auto, using(crate::proofs::ParamLemmas::no_constructor), unfolding(table_schema::specs::CellColumns::cell_columns))]
pub fn params_of<S: ReadView>(source: &S, of: Token) -> Option<Params>
    requires first { 1 ≤ of.row }
    requires last { of.row ≤ S.row_count source.now of.table }
    ensures { (model : Metadata) → S.shows source.now model → result ≡ params_of_constructor model of.table of.row }
{
    let row = of.row;
    match of.table {
        TableId::MethodDef => {
            params_in_cell(
                source,
                TableId::MethodDef,
                row,
                METHOD_SIGNATURE,
                SigKind::MethodDef,
            )
        }
        TableId::MemberRef => {
            params_in_cell(
                source,
                TableId::MemberRef,
                row,
                MEMBER_SIGNATURE,
                SigKind::MemberRef,
            )
        }
        _ => None,
    }
}
