//! What an address says.

ghost use Rattle.std.specs.Prelude.{◌≡◌, ℕ, List};
ghost use Rattle.catalog_text.specs.Places.{IsAddress};

/// A text is the address of one host, one port and one path.
pub fn an_address_is_of_one_place()
    ensures host { (text host other : List ℕ) (port number : ℕ) (path tail : List ℕ)
        → IsAddress text host port path → IsAddress text other number tail → host ≡ other }
    ensures port { (text host other : List ℕ) (port number : ℕ) (path tail : List ℕ)
        → IsAddress text host port path → IsAddress text other number tail → port ≡ number }
    ensures path { (text host other : List ℕ) (port number : ℕ) (path tail : List ℕ)
        → IsAddress text host port path → IsAddress text other number tail → path ≡ tail }
{}
