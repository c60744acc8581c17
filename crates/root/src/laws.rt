ghost use Rattle.std.specs.Prelude.{◌≡◌, ◌≤◌, ℕ, List, length, IfSome};
ghost use Rattle.packed.specs.Limit.{byte_limit};
ghost use Rattle.packed.specs.Rule.{AllHold};
ghost use Rattle.root.specs.declared.kind.Kind.{Kind};
ghost use Rattle.root.specs.Rules.{rules_of_root};
ghost use Rattle.root.specs.Fields.{root_read};
ghost use Rattle.root.specs.Root.{IsRoot};
ghost use Rattle.root.specs.Streams.{Header, range_of};

/// A root of at most 2^30 bytes satisfies all rules, and its fields give its version and headers. Bytes
/// that satisfy all rules are a root, and each stream of the standard ends within them.
pub fn roots_are_read()
    ensures rules_hold { (root version : List ℕ) (headers : List Header) → length root ≤ byte_limit → IsRoot root version headers
        → AllHold (rules_of_root root) }
    ensures said { (root version : List ℕ) (headers : List Header) → length root ≤ byte_limit → IsRoot root version headers
        → root_read root ≡ record { bytes = root; version = version; headers = headers } }
    ensures sound { (root : List ℕ) → AllHold (rules_of_root root)
        → (length root ≤ byte_limit) × IsRoot root (root_read root).version (root_read root).headers }
    ensures within { (root : List ℕ) (kind : Kind) → AllHold (rules_of_root root)
        → IfSome (range_of (root_read root) kind) (λ place. (place.0 ≤ place.1) × (place.1 ≤ length root)) }
{}
