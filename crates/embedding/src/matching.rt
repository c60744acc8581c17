//! Whether a root leads to the code and the data of a file.
ghost use Rattle.std.specs.Prelude.{◌≡◌, ◌⊎◌, ◌↔◌, IsTrue};
ghost use Rattle.table_schema.specs.declared.table.TableId.TheVariants.{MethodDef, FieldRVA};
ghost use Rattle.embedding.specs.Matching.{HaveSameAddresses, LeadsAlike};

use heap_entries::same_padded;
use opening::{TableId, View};

/// Whether a root leads to what the other leads to (II.22.18, II.22.26, II.24.2.4).
pub fn leads_alike(root: &View, other: &View) -> bool
    ensures { IsTrue result ↔ LeadsAlike root.now other.now }
{
    have_same_addresses(root, other, TableId::MethodDef)
        && have_same_addresses(root, other, TableId::FieldRVA)
        && other.count(TableId::File) <= root.count(TableId::File)
        && same_padded(root.user(), other.user())
}

/// Whether two roots have the same rows in a table of addresses, with the same RVAs.
fn have_same_addresses(root: &View, other: &View, table: TableId) -> bool
    requires { (table ≡ MethodDef) ⊎ (table ≡ FieldRVA) }
    ensures { IsTrue result ↔ HaveSameAddresses root.now other.now table }
{
    if root.count(table) != other.count(table) {
        return false;
    }
    for row in 1..other.count(table) + 1 {
        if root.source().number(table, row, 0) != other.source().number(table, row, 0) {
            return false;
        }
    }
    true
}
