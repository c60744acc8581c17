ghost use Rattle.std.specs.Prelude.{◌≡◌, ◌<◌, ◌≤◌, ◌^◌, ◌++◌, [], ◌⊎◌, ℕ, List, length, All, Contains, IsUtf8, Some, slice_index, slice_index_or};
ghost use Rattle.heap_pools.specs.BlobHeap.{blob_heap, blob_index};
ghost use Rattle.heap_pools.specs.Distinct.{distinct};
ghost use Rattle.heap_entries.specs.Entries.{HasNoNul, IsBlob, IsGuid, IsText};
ghost use Rattle.heap_pools.specs.GuidHeap.{guid_heap, guid_index};
ghost use Rattle.heap_pools.specs.HeapTexts.{heap_text, texts_at};
ghost use Rattle.heap_pools.specs.TextHeap.{holders, text_heap, text_index};

/// In the planned heap, the text at the index of a used text is this text. More bytes may follow the heap.
#[tactic(auto, using(crate::proofs::FoundLemmas::text_found))]
pub fn used_text_is_found()
    ensures { (used : List (List ℕ)) (text tail : List ℕ) → Contains used text → HasNoNul text → IsUtf8 text
        → IsText (text_heap (holders used) ++ tail) (text_index (holders used) text) text }
{}

/// What `texts_at` has for an index into a strings heap is the text there.
pub fn texts_are_at()
    ensures text { (heap : List ℕ) (index : ℕ) (text : List ℕ) → IsText heap index text → heap_text heap index ≡ text }
    ensures texts { (heap indexes : List ℕ) (texts : List (List ℕ)) → length texts ≡ length indexes
        → ((k : ℕ) → k < length indexes → IsText heap (slice_index indexes k) (slice_index_or texts k []))
        → texts_at heap indexes ≡ texts }
{}

/// In the heap, the blob at the index of a pooled blob is this blob. More bytes may follow the heap.
#[tactic(auto, using(crate::proofs::FoundLemmas::blob_found))]
pub fn pooled_blob_is_found()
    ensures { (entries : List (List ℕ)) (blob tail : List ℕ) → (blob ≡ []) ⊎ Contains entries blob → length blob < 2 ^ 29
        → IsBlob (blob_heap entries ++ tail) (blob_index entries blob) blob }
{}

/// In the heap, the GUID at the index of a pooled GUID is this GUID. More bytes may follow the heap.
#[tactic(auto, using(crate::proofs::FoundLemmas::guid_found))]
pub fn pooled_guid_is_found()
    ensures { (entries : List (List ℕ)) (guid tail : List ℕ) → Contains entries guid → All (λ entry. length entry ≡ 16) entries
        → IsGuid (guid_heap entries ++ tail) (guid_index entries (Some guid)) (Some guid) }
{}

/// The heap of the first uses is not longer than the heap of all uses.
#[tactic(auto, using(crate::proofs::GrowLemmas::blobs_grow, crate::proofs::GrowLemmas::guids_grow, crate::proofs::HolderLemmas::texts_grow))]
pub fn heaps_grow()
    ensures texts { (used more : List (List ℕ)) → length (text_heap (holders used)) ≤ length (text_heap (holders (used ++ more))) }
    ensures blobs { (used more : List (List ℕ)) → length (blob_heap (distinct used)) ≤ length (blob_heap (distinct (used ++ more))) }
    ensures guids { (used more : List (List ℕ)) → length (guid_heap (distinct used)) ≤ length (guid_heap (distinct (used ++ more))) }
{}
