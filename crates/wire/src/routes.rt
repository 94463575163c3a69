//! Paths that are routes, each with a value.

ghost use Rattle.std.specs.Prelude.{◌≡◌, ℕ, List, None, Some, if◌then◌else◌, OnOk, OnErr, bytes_eq};
ghost use Rattle.std.specs.List.{list_all};
ghost use Rattle.wire.specs.Routes.{is_plain_byte, value_at};

use matchit::{InsertError, Router};
use std::alloc::Global;
use std::marker::Model;
use std::str::from_utf8;

/// Paths, each with a value. Contracts see them as the rows of a router, whose patterns are the paths.
#[derive(Drop)]
pub struct Routes<T> {
    router: Router<T>,
}

impl<T> Model for Routes<T> {
    ghost use Rattle.matchit.specs.Rows.{RowsOf};
    ghost use Rattle.matchit.specs.Router.{RouteOf};
    ghost use Rattle.wire.specs.Routes.{ArePlain};

    ghost Value = { RowsOf (RouteOf T) };

    ghost view = { λ r. r.router };

    ghost invariant = { λ r. ArePlain r.router };
}

impl<T: Copy + Drop> Routes<T> {
    /// No path.
    pub fn new(alloc: Global) -> Routes<T>
        ensures { (path : List ℕ) → value_at result path ≡ None }
    {
        Routes {
            router: Router::new(alloc),
        }
    }

    /// Adds a path with a value, or says why it can't: it is there, it has a byte from `{` on, as names of lists have
    /// none, or no memory is left.
    pub fn add(&mut self, path: &str, value: T) -> Result<(), InsertError>
        ensures added { OnOk result ((other : List ℕ) → value_at self.new other ≡ (if bytes_eq other path.now then Some value else value_at self.old other)) }
        ensures kept { OnErr result (self.new ≡ self.old) }
    {
        if !is_plain(path.as_bytes()) {
            return Err(InsertError::InvalidParam);
        }
        self.router.insert(path, value)
    }

    /// The value of this path. Takes no memory.
    pub fn find(&self, path: &[u8]) -> Option<T>
        ensures { result ≡ value_at self.now path.now }
    {
        let router = &self.router;
        let Ok(path) = from_utf8(path) else {
            return None;
        };
        match router.at(path) {
            Ok(found) => Some(*found.value),
            Err(_) => None,
        }
    }
}

/// Whether all bytes of a path stand for themselves in a router, whose parameters stand in braces.
fn is_plain(path: &[u8]) -> bool
    ensures { result ≡ list_all is_plain_byte path.now }
{
    path.iter().all(|byte| is_plain_byte(*byte))
}

/// Whether a byte stands before `{`.
fn is_plain_byte(byte: u8) -> bool
    ensures { result ≡ is_plain_byte byte }
{
    byte < b'{'
}
