use table_schema::TableId;

/// A column whose cells list members: each row owns a run of rows of another table (II.22).
#[derive(Clone, Copy)]
pub enum MemberList {
    /// The fields of a type (II.22.37).
    Fields,
    /// The methods of a type (II.22.37).
    Methods,
    /// The parameters of a method (II.22.26).
    Params,
    /// The events of a row of EventMap (II.22.12).
    Events,
    /// The properties of a row of PropertyMap (II.22.35).
    Properties,
}

impl MemberList {
    ghost use Rattle.std.specs.Prelude.{◌≡◌, ◌<◌, length};
    ghost use Rattle.table_schema.specs.declared.column.ColumnKind.TheVariants.{List};
    ghost use Rattle.table_schema.specs.Columns.{columns_of, column_at};
    ghost use Rattle.table_schema.specs.CellColumns.{cell_count};
    ghost use Rattle.metadata.specs.Valid.{kind_at};
    ghost use Rattle.metadata.specs.MemberLists.{owner_of, cell_of, member_of};

    /// The table of the owners.
    pub fn owner(self) -> TableId
        ensures { result ≡ owner_of self }
    {
        match self {
            MemberList::Fields | MemberList::Methods => TableId::TypeDef,
            MemberList::Params => TableId::MethodDef,
            MemberList::Events => TableId::EventMap,
            MemberList::Properties => TableId::PropertyMap,
        }
    }

    /// The index of the cell that lists the members, in a row of an owner.
    #[tactic(auto, unfolding(table_schema::specs::CellColumns::cell_columns))]
    pub fn cell(self) -> usize
        ensures value { result ≡ cell_of self }
        ensures within { cell_of self < cell_count (owner_of self) }
        ensures kind { kind_at (owner_of self) (cell_of self) ≡ List (member_of self) }
        ensures column { cell_of self < length (columns_of (owner_of self)) }
        ensures lists { (column_at (owner_of self) (cell_of self)).kind ≡ List (member_of self) }
    {
        match self {
            MemberList::Fields => 4,
            MemberList::Methods | MemberList::Params => 5,
            MemberList::Events | MemberList::Properties => 1,
        }
    }

    /// The table of the members.
    pub fn member(self) -> TableId
        ensures value { result ≡ member_of self }
        ensures columns { 0 < length (columns_of (member_of self)) }
    {
        match self {
            MemberList::Fields => TableId::Field,
            MemberList::Methods => TableId::MethodDef,
            MemberList::Params => TableId::Param,
            MemberList::Events => TableId::Event,
            MemberList::Properties => TableId::Property,
        }
    }
}
