ghost use Rattle.std.specs.Prelude.{◌≡◌, ◌^◌, ◌<◌, Bool};
ghost use Rattle.table_schema.specs.declared.table.TableId.{TableId as Table};
ghost use Rattle.table_schema.specs.Tables.{tables};
ghost use Rattle.schema.specs.LaidOut.{bits_of};
ghost use Rattle.schema.specs.Header.{has_bit};

/// The bits of the tables that pass a test are set for these tables and no other, and fit in eight bytes.
#[tactic(auto, using(crate::proofs::BitLemmas::has_bit_of, crate::proofs::BitLemmas::bits_low))]
pub fn bits_are_known()
    ensures set { (test : Table → Bool) (table : Table) → has_bit (bits_of test tables) table ≡ test table }
    ensures low { (test : Table → Bool) → bits_of test tables < 2 ^ 64 }
{}
