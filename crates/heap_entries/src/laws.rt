ghost use Rattle.std.specs.Prelude.{◌≡◌, ℕ, List, Option};
ghost use Rattle.heap_entries.specs.Entries.{IsBlob, IsGuid, IsText, IsUserString, UserText};

/// At an index into a heap there is at most one text, one blob, one user string and one GUID.
pub fn entries_are_one()
    ensures text { (heap : List ℕ) (index : ℕ) (text other : List ℕ) → IsText heap index text → IsText heap index other → text ≡ other }
    ensures blob { (heap : List ℕ) (index : ℕ) (blob other : List ℕ) → IsBlob heap index blob → IsBlob heap index other → blob ≡ other }
    ensures user { (heap : List ℕ) (index : ℕ) (string other : UserText) → IsUserString heap index string
        → IsUserString heap index other → string ≡ other }
    ensures guid { (heap : List ℕ) (index : ℕ) (guid other : Option (List ℕ)) → IsGuid heap index guid → IsGuid heap index other
        → guid ≡ other }
{}
