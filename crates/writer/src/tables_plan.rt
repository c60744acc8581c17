ghost use Rattle.std.specs.Prelude.{◌≡◌, ◌<◌, length, sum_by};
ghost use Rattle.table_schema.specs.Tables.{tables};
ghost use Rattle.metadata.specs.Metadata.{Metadata};
ghost use Rattle.root_writer.specs.Numbers.{numbers};
ghost use Rattle.root_writer.specs.TableStream.{sizes_of, table_stream};
ghost use Rattle.root_writer.specs.Flat.{cells_of};
ghost use Rattle.root_writer.specs.Numbered.{flat};
ghost use Rattle.writer.specs.Outlined.{Describes};
ghost use Rattle.writer.specs.Planned.{IsTablesPlan, planned_tables};

use crate::root_outline::Outline;
use schema::Layout;
use table_schema::TableId;

/// The plan of a table stream (II.24.2.6).
#[derive(Drop)]
pub struct TablesPlan {
    /// The row count of each table, and the widths of the columns.
    pub layout: Layout,
    /// HeapSizes: which heaps have indexes of four bytes.
    pub heap_sizes: u8,
    /// Sorted: the bits of the keyed tables whose rows are in order.
    pub sorted: u64,
    /// The length of the stream in bytes, without padding.
    pub len: usize,
}

impl TablesPlan {
    /// The table stream of the canonical root of the outline, by the HeapSizes of that root.
    pub(crate) fn of(outline: &Outline, heap_sizes: u8) -> TablesPlan
        requires { heap_sizes < 8 }
        ensures plan { (model : Metadata) → Describes outline.now model → heap_sizes ≡ (sizes_of model).heap_sizes → IsTablesPlan model result }
        ensures many { (model : Metadata) → Describes outline.now model → length (flat (numbers model)) ≡ sum_by (cells_of result.layout) tables }
        ensures stream { (model : Metadata) → Describes outline.now model → heap_sizes ≡ (sizes_of model).heap_sizes
            → planned_tables result (flat (numbers model)) ≡ table_stream model }
    {
        schema::laws::widths_follow_from_counts();
        root_writer::laws::numbers_are_put();
        root_writer::laws::table_headers_are_put();
        let layout = Layout::of(&outline.counts, heap_sizes);
        let last = TableId::GenericParamConstraint;
        let len = layout.row_start(last, layout.count(last) + 1);
        TablesPlan {
            layout,
            heap_sizes,
            sorted: outline.sorted,
            len,
        }
    }
}
