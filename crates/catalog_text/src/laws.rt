//! What the definitions of a catalog and of its first fault have to do with each other.

ghost use Rattle.std.specs.Prelude.{ℕ, List};
ghost use Rattle.catalog_text.specs.Catalog.{IsCatalog, Listed};
ghost use Rattle.catalog_text.specs.Judging.{IsBroken, IsRepeated};

/// A text with a record at fault is no catalog: with `read_catalog`'s own clause, a text is read
/// exactly where it is one, but for lack of memory.
pub fn a_fault_leaves_no_catalog()
    ensures form { (records : List (List (List ℕ))) (sources : List Listed) (line : ℕ) → IsCatalog records sources → IsBroken records line → ⊥ }
    ensures name { (records : List (List (List ℕ))) (sources : List Listed) (line : ℕ) → IsCatalog records sources → IsRepeated records line → ⊥ }
{}
