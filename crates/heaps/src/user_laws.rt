ghost use Rattle.std.specs.Prelude.{◌<◌, ◌^◌, ◌++◌, ℕ, List, length, Some};
ghost use Rattle.heap_entries.specs.Entries.{IsUserString};
ghost use Rattle.heaps.specs.UserEntries.{last_byte, user_entry, user_length};

/// The user string at the offset at which one was pushed is this one, whatever bytes follow.
pub fn pushed_string_is_found()
    ensures { (heap units tail : List ℕ) → 0 < length heap → user_length units < 2 ^ 29
        → IsUserString (heap ++ (user_entry units ++ tail)) (length heap) (record { units = units; flag = Some (last_byte units) }) }
{}
