//! What every crate stands on: limits and settings, `Memory`, values in order, and what a line, a number and a name are in a text.
//!
//! Each limit is stated once, and every other crate cites it from here. `Memory` is the error of a call that gets no memory.
//!
//! `Seq32` holds values in order, which contracts see as their list.
//!
//! It takes the place of a struct with a model for each kind of value.
//!
//! A text is cut into lines, numbers and names by `first_line` and its like.
#![tactic(auto)]

ghost use Rattle.std.specs.Prelude.{◌≡◌, ◌==◌, ◌<◌, ◌^◌, length, slice_get, vec_len};
ghost use Rattle.std.specs.Option.{option_map};
ghost use Rattle.std.specs.Slice.Iter.{iter_rest};
ghost use Rattle.std.specs.Iterator.Adapters.{IterYieldsInOrder};

mod cuts;
mod fronts;
mod lines;
mod memory;
mod names;
mod numbers;
mod settings;

pub use cuts::{cut_at, rest_after};
pub use fronts::number_front;
pub use lines::first_line;
pub use memory::Memory;
pub use names::{is_name, is_name_byte};
pub use numbers::{NumberFault, are_digits, is_number, number_up_to, read_number, value_of_digits};
pub use settings::Settings;
use std::marker::Model;
use std::slice::Iter;

/// The most objects, and so the most rows of a list.
pub const MAX_OBJECTS: u32 = 200_000;

/// The greatest grade. The least is 0.
pub const TOP_GRADE: u32 = 1_000_000;

/// The most lists of a bundle.
pub const MAX_BUNDLE_LISTS: usize = 64;

/// The most bytes of an input.
pub const MAX_INPUT: u64 = 134_217_728;

/// The most bytes of a list's file.
pub const MAX_LIST_TEXT: u64 = 16_777_216;

/// The most lists of a query.
pub const MAX_LISTS: usize = 8;

/// The most nodes of an expression.
pub const MAX_NODES: usize = 64;

/// The deepest nesting of an expression. A list alone has depth 1.
pub const MAX_DEPTH: usize = 8;

/// The greatest value that a node of an expression may reach.
pub const MAX_VALUE: u64 = 0x7fff_ffff_ffff_ffff;

/// The greatest weight. The least is 0.
pub const MAX_WEIGHT: u64 = 0x7fff_ffff_ffff_ffff;

/// The most bytes of a query line.
pub const MAX_LINE: u32 = 4096;

/// The greatest k, cost and room. The least is 1.
pub const MAX_NUMBER: u32 = 1_000_000;

/// The greatest number that a table is made from. The least is 0.
pub const MAX_START: u64 = 0x7fff_ffff_ffff_ffff;

/// The most sources of a catalog.
pub const MAX_SOURCES: u32 = 64;

/// The most query lines that are asked at once.
pub const MAX_QUERIES: u64 = 64;

/// The most bytes of the name or address of a host. The least is 1.
pub const MAX_HOST: usize = 128;

/// The most rows of a source that a query holds at once, copied from what was read of it.
pub const MAX_WINDOW: u32 = 256;

/// The most bytes of a list's name. The least is 1.
pub const MAX_NAME: usize = 32;

/// The most queries that run at the same time. The least is 1.
pub const MAX_WORKERS: u64 = 32;

/// The most rows of a page. The least is 1.
pub const MAX_PAGE: u64 = 10_000;

/// The most pages that are read ahead. The least is 0.
pub const MAX_AHEAD: u64 = 100;

/// The most connections that one call serves. The least is 1.
pub const MAX_CONNS: u64 = 1_000_000;

/// The greatest version that a node may be told. The least is 0.
pub const MAX_VERSION: u64 = 0x7fff_ffff_ffff_ffff;

/// The most bytes of the head of an HTTP message, and of the trailer lines behind a body in chunks.
pub const MAX_HEAD: u32 = 16_384;

/// The most header lines of the head of an HTTP message, and the most trailer lines.
pub const MAX_HEADERS: usize = 64;

/// The most bytes of a line that says how long a chunk is.
pub const MAX_CHUNK_LINE: u32 = 16_384;

/// The most bytes of the body of an HTTP message.
pub const MAX_BODY: u32 = 16_777_216;

/// How many seconds a read or a write of a connection may wait without moving a byte.
pub const MAX_WAIT_SECONDS: u64 = 30;

/// How many seconds the reads of a connection may take from the first one on, and as many its writes.
pub const MAX_LINK_SECONDS: u64 = 300;

/// How many seconds a connection may take to come about.
pub const MAX_CONNECT_SECONDS: u64 = 10;

/// How many milliseconds a port waits that can't take a connection for now, before it tries again.
pub const PORT_PAUSE_MILLIS: u64 = 20;

/// How many seconds a connection that is let go is still read, so that what was written to it arrives.
pub const MAX_LINGER_SECONDS: u64 = 10;

/// How many seconds each of these reads waits for a byte.
pub const MAX_LINGER_WAIT_SECONDS: u64 = 2;

/// How many bytes these reads take at most, to the piece.
pub const MAX_LINGER: usize = 16_777_216;

/// Values in order, fewer than 2^32, which contracts see as their list.
#[derive(Drop)]
pub struct Seq32<T> {
    items: Vec<T>,
}

impl<T> Model for Seq32<T> {
    ghost use Rattle.std.specs.Prelude.{List, ◌<◌, ◌^◌, vec_len};
    ghost use Rattle.std.specs.Coded.{coded_list};

    ghost Value = { List T };

    ghost coded = { coded_list T.code };

    ghost view = { λ a. a.items.items };

    ghost invariant = { λ a. vec_len a.items < 2 ^ 32 };
}

impl<T> Seq32<T> {
    /// The values of a vector, in its order. Takes no memory.
    pub fn from_vec(items: Vec<T>) -> Seq32<T>
        requires { vec_len items < 2 ^ 32 }
        ensures { result ≡ items.items }
    {
        Seq32 { items }
    }

    /// The vector of the values. Takes no memory.
    pub fn into_vec(self) -> Vec<T>
        ensures { result.items ≡ self }
    {
        let Seq32 { items } = self;
        items
    }

    /// How many there are.
    pub fn len(&self) -> u32
        ensures { result ≡ length self.now }
    {
        self.items.len() as u32
    }

    /// Whether there are none.
    pub fn is_empty(&self) -> bool
        ensures { result ≡ (length self.now == 0) }
    {
        self.items.is_empty()
    }

    /// The value at a place from 0, or None past the end.
    pub fn get(&self, place: u32) -> Option<&T>
        ensures { option_map (λ item. item.now) result ≡ slice_get self.now place }
    {
        self.items.get(place as usize)
    }

    /// The values, in their order.
    pub fn iter(&self) -> Iter<'_, T>
        ensures rest { iter_rest result ≡ self.now }
        ensures few { length (iter_rest result) < 2 ^ 32 }
        ensures runs { IterYieldsInOrder T }
    {
        self.items.iter()
    }
}
