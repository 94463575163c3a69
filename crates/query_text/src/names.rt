//! The names of a query's lists.

use std::marker::Model;
use std::slice::Iter;

/// The names of the lists of a query, in order. Contracts see the list of the names' bytes.
#[derive(Drop)]
pub struct Names {
    items: Vec<Vec<u8>>,
}

impl Model for Names {
    ghost use Rattle.std.specs.Prelude.{List, ℕ};
    ghost use Rattle.query_text.specs.Bytes.{bytes_of};

    ghost Value = { List (List ℕ) };

    ghost view = { λ n. bytes_of n.items.items };

    ghost use Rattle.std.specs.Prelude.{◌^◌, ◌<◌, vec_len};

    ghost invariant = { λ n. vec_len n.items < 2 ^ 32 };
}

impl Names {
    ghost use Rattle.std.specs.Prelude.{◌≡◌, ◌==◌, ◌^◌, ◌<◌, ℕ, length, slice_get, vec_len};
    ghost use Rattle.std.specs.Option.{option_map};
    ghost use Rattle.std.specs.Slice.Iter.{iter_rest};
    ghost use Rattle.std.specs.Iterator.Adapters.{IterYieldsInOrder};
    ghost use Rattle.std.specs.Global.{Vec};
    ghost use Rattle.query_text.specs.Bytes.{bytes_of};

    /// The names of a vector, in its order. Takes no memory.
    pub fn from_vec(items: Vec<Vec<u8>>) -> Names
        requires { vec_len items < 2 ^ 32 }
        ensures { result ≡ bytes_of items.items }
    {
        Names { items }
    }

    /// The vector of the names. Takes no memory.
    pub fn into_vec(self) -> Vec<Vec<u8>>
        ensures { bytes_of result.items ≡ self }
    {
        let Names { items } = self;
        items
    }

    /// How many names there are.
    pub fn len(&self) -> u32
        ensures { result ≡ length self.now }
    {
        self.items.len() as u32
    }

    /// Whether there is none.
    pub fn is_empty(&self) -> bool
        ensures { result ≡ (length self.now == 0) }
    {
        self.items.is_empty()
    }

    /// The name of a list by its number, from 0, or None past the last.
    pub fn get(&self, list: u32) -> Option<&[u8]>
        ensures { option_map (λ name. name.now) result ≡ slice_get self.now list }
    {
        Some(self.items.get(list as usize)?.as_slice())
    }

    /// The names, in the order of the lists.
    pub fn iter(&self) -> Iter<'_, Vec<u8>>
        ensures rest { bytes_of (iter_rest result) ≡ self.now }
        ensures few { length (iter_rest result) < 2 ^ 32 }
        ensures runs { IterYieldsInOrder (Vec ℕ) }
    {
        self.items.iter()
    }
}
