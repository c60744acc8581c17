//! The sizes of types by the rows of ClassLayout (II.22.8).
ghost use Rattle.std.specs.Prelude.{◌↔◌, ℕ, IsTrue, IfSome, IfNone};
ghost use Rattle.file_ranges.specs.ClassSizes.{AreParentsRising, AreSizes, IsSizeOf, MayHaveLayout};

use opening::{Source, TableId};

/// The column of ClassLayout with the size of a type.
const CLASS_SIZE: usize = 1;

/// The column of ClassLayout with the type.
const PARENT: usize = 2;

/// How the size of a type is found in time that is logarithmic in the rows.
#[derive(Clone, Copy)]
pub enum ClassSizes {
    /// By binary search: the Parents of ClassLayout rise from row to row.
    ByParent,
    /// Parents do not rise. The largest ClassSize of all rows stands for each type's.
    Largest(u32),
}

impl ClassSizes {
    /// How the sizes in a source are found. It reads each row at most twice.
    pub fn of(source: &Source) -> ClassSizes
        ensures { AreSizes source.now.source result }
    {
        if are_parents_rising(source) {
            ClassSizes::ByParent
        } else {
            ClassSizes::Largest(largest_size(source))
        }
    }

    /// The largest size that the type in a row of TypeDef may have, and 0 if it has none.
    pub fn size_of(self, source: &Source, row: u32) -> u32
        requires { AreSizes source.now.source self }
        ensures { IsSizeOf source.now.source row result }
    {
        match self {
            ClassSizes::ByParent => match layout_of(source, row) {
                Some(layout) => source.number(TableId::ClassLayout, layout, CLASS_SIZE),
                None => 0,
            },
            ClassSizes::Largest(size) => size,
        }
    }
}

/// Whether the Parents of ClassLayout rise from row to row.
fn are_parents_rising(source: &Source) -> bool
    ensures { IsTrue result ↔ AreParentsRising source.now.source }
{
    for layout in 2..source.count(TableId::ClassLayout) + 1 {
        let before = source.number(TableId::ClassLayout, layout - 1, PARENT);
        if before >= source.number(TableId::ClassLayout, layout, PARENT) {
            return false;
        }
    }
    true
}

/// The largest ClassSize, and 0 if there are no rows.
fn largest_size(source: &Source) -> u32
    requires { ¬ AreParentsRising source.now.source }
    ensures { (row : ℕ) → IsSizeOf source.now.source row result }
{
    let count = source.count(TableId::ClassLayout);
    source
        .column(TableId::ClassLayout, CLASS_SIZE)
        .greatest(count + 1)
}

/// The row of ClassLayout whose Parent is a row of TypeDef, by binary search.
fn layout_of(source: &Source, row: u32) -> Option<u32>
    requires { AreParentsRising source.now.source }
    ensures sound { IfSome result (MayHaveLayout source.now.source row) }
    ensures none { IfNone result ((layout : ℕ) → ¬ MayHaveLayout source.now.source row layout) }
{
    let mut first = 1;
    let mut past = source.count(TableId::ClassLayout) + 1;
    while first < past {
        let middle = first + (past - first) / 2;
        let parent = source.number(TableId::ClassLayout, middle, PARENT);
        if parent == row {
            return Some(middle);
        }
        if parent < row {
            first = middle + 1;
        } else {
            past = middle;
        }
    }
    None
}
