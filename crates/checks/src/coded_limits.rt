ghost use Rattle.std.specs.Prelude.{◌≢◌, IsTrue, Ok};
ghost use Rattle.table_schema.specs.declared.column.ColumnKind.TheVariants as kind;
ghost use Rattle.metadata.specs.Source.{Source as Numbers};
ghost use Rattle.checks.specs.Columns.{IsChecked};
ghost use Rattle.checks.specs.CodedLimits.{IsLimit, AreLimits};

use reading::Source;
use table_schema::Coded;

/// No coded index has more tags: a tag has at most five bits (II.24.2.6).
pub const TAGS: usize = 32;

/// One more than the last row that a coded index with a tag may name; 0 if the tag is not used.
fn limit_of(source: &Source, coded: Coded, tag: usize) -> u32
    ensures { result ≢ 0 → IsLimit source.now.source coded tag result }
{
    match coded.tables().get(tag) {
        Some(Some(table)) => source.count(*table) + 1,
        _ => 0,
    }
}

/// The limits of the rows that a coded index may name, by its tag.
pub fn limits_by_tag(source: &Source, coded: Coded) -> [u32; TAGS]
    ensures { AreLimits source.now.source coded result }
{
    let mut limits = [0; TAGS];
    for tag in 0..TAGS {
        limits[tag] = limit_of(source, coded, tag);
    }
    limits
}

/// Whether a coded index names a row below the limit of its tag, or is null and null is allowed.
#[inline]
pub fn is_below_limit(limits: &[u32; TAGS], coded: Coded, nullable: bool, number: u32) -> bool
    ensures { (source : Numbers) → AreLimits source coded limits.now → IsTrue result → IsChecked source (kind.Coded coded) nullable number (Ok tt) }
{
    let bits = coded.tag_bits();
    let row = number >> bits;
    let tag = number - (row << bits);
    row < limits[tag as usize % TAGS] && (row != 0 || nullable)
}
