//! How lines follow one another.
ghost use Rattle.std.specs.Prelude.{◌++◌, ◌∷◌, [], List};
ghost use Rattle.cli_lines.specs.Lines.{Part};
ghost use Rattle.cli_lines.specs.Printed.{Adds, Begins, Completes, Ends, Printed, Prints};

use std::io::Write;

/// A printer that takes lines, and then other lines, takes both in this order.
pub fn lines_follow<W: Write>()
    ensures nothing { (printer : Printed W) → Prints printer printer [] }
    ensures more { (old between new : Printed W) (first second : List (List Part)) → Prints old between first → Prints between new second → Prints old new (first ++ second) }
{}

/// A printer that prints what is left prints all in the end.
pub fn reports_are_completed<W: Write>()
    ensures start { (printer : Printed W) (lines : List (List Part)) → Completes printer printer lines lines }
    ensures more { (old now next : Printed W) (lines left all : List (List Part)) → Completes old now (lines ++ left) all → Prints now next lines → Completes old next left all }
    ensures all { (old new : Printed W) (all : List (List Part)) → Completes old new [] all → Prints old new all }
{}

/// A line has the parts that it was begun with, and those that were added.
#[tactic(auto, using(crate::proofs::PrintedLemmas::adds_more, crate::proofs::PrintedLemmas::adds_nothing, crate::proofs::PrintedLemmas::begins_more))]
pub fn parts_follow<W: Write>()
    ensures nothing { (printer : Printed W) → Adds printer printer [] }
    ensures more { (old between new : Printed W) (first second : List Part) → Adds old between first → Adds between new second → Adds old new (first ++ second) }
    ensures begun { (old between new : Printed W) (first second : List Part) → Begins old between first → Adds between new second → Begins old new (first ++ second) }
    ensures line { (old begun added new : Printed W) (first second : List Part) → Begins old begun first → Adds begun added second → Ends added new
        → Prints old new ((first ++ second) ∷ []) }
{}
