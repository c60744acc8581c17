ghost use Rattle.std.specs.Prelude.{◌≡◌, ◌≤◌, ◌<◌, ℕ};
ghost use Rattle.table_schema.specs.declared.table.TableId.TheVariants.{TypeDef, MethodDef, Field, Param, Event, Property};
ghost use Rattle.metadata.specs.declared.member_lists.MemberList.TheVariants as list_of;
ghost use Rattle.metadata.specs.Metadata.{Metadata};
ghost use Rattle.metadata.specs.MemberLists.{owner_of, member_of};
ghost use Rattle.navigation.specs.Owners.{Owns};

use metadata_source::{MemberList, ReadMetadata};

/// The owner of a member, by binary search over the starts: the last row whose run begins at the member or before it.
fn owner<S: ReadMetadata>(source: &S, list: MemberList, member: u32) -> u32
    requires first { 1 ≤ member }
    requires last { member ≤ S.row_count source.now (member_of list) }
    ensures sound { (model : Metadata) → S.shows source.now model → Owns model list result member }
    ensures one { (model : Metadata) → S.shows source.now model → (row : ℕ) → Owns model list row member → row ≡ result }
    ensures first { 1 ≤ result }
    ensures last { result ≤ S.row_count source.now (owner_of list) }
{
    source.holds_one();
    let mut low = 1;
    let mut past = source.count(list.owner()) + 1;
    while 1 < past - low {
        let middle = low + (past - low) / 2;
        if source.start(list, middle) <= member {
            low = middle;
        } else {
            past = middle;
        }
    }
    low
}

/// The type that has a field, as a row of TypeDef (II.22.37).
///
/// It reads the starts of log n types. On a view a null start is followed to the next one that is not null.
pub fn type_of_field<S: ReadMetadata>(source: &S, row: u32) -> u32
    requires first { 1 ≤ row }
    requires last { row ≤ S.row_count source.now Field }
    ensures sound { (model : Metadata) → S.shows source.now model → Owns model list_of.Fields result row }
    ensures one { (model : Metadata) → S.shows source.now model → (class : ℕ) → Owns model list_of.Fields class row → class ≡ result }
    ensures first { 1 ≤ result }
    ensures last { result ≤ S.row_count source.now TypeDef }
{
    owner(source, MemberList::Fields, row)
}

/// The type that has a method, as a row of TypeDef (II.22.37).
///
/// It reads the starts of log n types. On a view a null start is followed to the next one that is not null.
pub fn type_of_method<S: ReadMetadata>(source: &S, row: u32) -> u32
    requires first { 1 ≤ row }
    requires last { row ≤ S.row_count source.now MethodDef }
    ensures sound { (model : Metadata) → S.shows source.now model → Owns model list_of.Methods result row }
    ensures one { (model : Metadata) → S.shows source.now model → (class : ℕ) → Owns model list_of.Methods class row → class ≡ result }
    ensures first { 1 ≤ result }
    ensures last { result ≤ S.row_count source.now TypeDef }
{
    owner(source, MemberList::Methods, row)
}

/// The method that has a parameter, as a row of MethodDef (II.22.26).
///
/// It reads the starts of log n methods. On a view a null start is followed to the next one that is not null.
pub fn method_of_param<S: ReadMetadata>(source: &S, row: u32) -> u32
    requires first { 1 ≤ row }
    requires last { row ≤ S.row_count source.now Param }
    ensures sound { (model : Metadata) → S.shows source.now model → Owns model list_of.Params result row }
    ensures one { (model : Metadata) → S.shows source.now model → (method : ℕ) → Owns model list_of.Params method row → method ≡ result }
    ensures first { 1 ≤ result }
    ensures last { result ≤ S.row_count source.now MethodDef }
{
    owner(source, MemberList::Params, row)
}

/// The row of EventMap that has an event (II.22.12).
///
/// It reads the starts of log n rows. On a view a null start is followed to the next one that is not null.
pub fn event_map_of_event<S: ReadMetadata>(source: &S, row: u32) -> u32
    requires first { 1 ≤ row }
    requires last { row ≤ S.row_count source.now Event }
    ensures sound { (model : Metadata) → S.shows source.now model → Owns model list_of.Events result row }
    ensures one { (model : Metadata) → S.shows source.now model → (map : ℕ) → Owns model list_of.Events map row → map ≡ result }
    ensures first { 1 ≤ result }
    ensures last { result ≤ S.row_count source.now (owner_of list_of.Events) }
{
    owner(source, MemberList::Events, row)
}

/// The row of PropertyMap that has a property (II.22.35).
///
/// It reads the starts of log n rows. On a view a null start is followed to the next one that is not null.
pub fn property_map_of_property<S: ReadMetadata>(source: &S, row: u32) -> u32
    requires first { 1 ≤ row }
    requires last { row ≤ S.row_count source.now Property }
    ensures sound { (model : Metadata) → S.shows source.now model → Owns model list_of.Properties result row }
    ensures one { (model : Metadata) → S.shows source.now model → (map : ℕ) → Owns model list_of.Properties map row → map ≡ result }
    ensures first { 1 ≤ result }
    ensures last { result ≤ S.row_count source.now (owner_of list_of.Properties) }
{
    owner(source, MemberList::Properties, row)
}
