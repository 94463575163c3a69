//! Why a query line is refused.

ghost use Rattle.std.specs.Prelude.{◌≡◌, ◌++◌, ◌∷◌, [], map};
ghost use Rattle.std.specs.Option.{option_copied};
ghost use Rattle.tk_io.specs.Pieces.{Puts};
ghost use Rattle.cert_text.specs.Outcome.{names_of, refused_line};
ghost use Rattle.cert_text.specs.Refusal.{field_word, refusal_row};
ghost use Rattle.cert_text.specs.Writing.{further, word_text, shown_field};

use super::fields::{FieldValue, fields_of};
use super::words::{Word, put_further};
use super::writing::name_of;
use query_text::Query;
use tk_io::Put;

/// Why a query line isn't answered.
#[derive(Clone, Copy)]
pub enum Refusal {
    /// The input has more query lines than `limit`, and this is one past them.
    ManyQueries {
        limit: u32,
    },
    /// The line has more bytes than `limit`.
    LongLine {
        limit: u32,
    },
    /// The line isn't of the shape of query text. Its first `at` bytes are the longest front of it
    /// that begins some text of the shape.
    Syntax {
        at: u32,
    },
    /// The number whose first byte is at this place of the line, from 0, is out of its range.
    Number {
        at: u32,
    },
    /// One list too many is named at this place of the line, from 0.
    TooManyLists {
        at: u32,
    },
    /// The factor `p / q` that is asked for is less than 1.
    BadTheta {
        p: u32,
        q: u32,
    },
    /// The expression has this many nodes, which are too many.
    TooManyNodes {
        nodes: u64,
    },
    /// The expression nests this deep, which is too deep.
    TooDeep {
        depth: u64,
    },
    /// The value of this node, counted from 1, may be too big.
    TooBig {
        node: u32,
    },
    /// There is no list of this name. `list` is the list's number in the query.
    UnknownList {
        list: u8,
    },
    /// This list, by its number in the query, couldn't be opened.
    NotOpened {
        list: u8,
    },
    /// This list, by its number in the query, states `count` objects, which are too many.
    TooLarge {
        list: u8,
        count: u64,
    },
    /// The lists differ in their counts: `list` states `n` objects and `other` states `m`.
    CountsDiffer {
        list: u8,
        n: u32,
        other: u8,
        m: u32,
    },
    /// More objects are asked for than the lists have: `k` of `n`.
    KAboveCount {
        k: u32,
        n: u32,
    },
    /// The algorithm makes random accesses, and this list, by its number in the query, offers none.
    NoRandom {
        list: u8,
    },
    /// The algorithm reads this list, by its number in the query, in order, and that can't be done. For `taz`, which reads
    /// those that can be, it is the first list where there is none such.
    NoSorted {
        list: u8,
    },
    /// This object is one more than the `count` objects that the lists have.
    Strangers {
        object: u32,
        count: u32,
    },
    /// The answer needs more objects at once than the query has room for.
    RoomFull {
        room: u32,
    },
    /// The grade `after` of the row at `place` of this list, from 1, is above `before`, the grade of
    /// the row over it.
    OutOfOrder {
        list: u8,
        place: u32,
        before: u32,
        after: u32,
    },
    /// The grade of the row at `place` of this list, from 1, is above 1,000,000.
    TooHigh {
        list: u8,
        place: u32,
        grade: u32,
    },
    /// The row at `place` of this list, from 1, has the object of a row above it.
    Repeated {
        list: u8,
        object: u32,
        place: u32,
    },
    /// The source of this list gave both grades of the object, one by sorted and one by random access.
    Clash {
        list: u8,
        object: u32,
        sorted: u32,
        random: u32,
    },
    /// Random access gave `grade` for an object that the rows of this list don't hold, and a row, or
    /// the last one, has the lesser grade `bottom`.
    Above {
        list: u8,
        object: u32,
        grade: u32,
        bottom: u32,
    },
    /// The source of this list hasn't the object, whose grade is needed.
    Missing {
        list: u8,
        object: u32,
    },
    /// The source of this list states `stated` objects, and no row came after the first `got` ones.
    ShortList {
        list: u8,
        stated: u32,
        got: u32,
    },
    /// The source of this list was asked for the grades of `kept` objects, as many as it states, and
    /// the object whose grade is needed isn't one of them.
    AsksFull {
        list: u8,
        kept: u32,
    },
    /// A call of this list's source failed while the query waited for it.
    Failed {
        list: u8,
    },
    /// A call of this list's source was answered by garbled data while the query waited for it.
    Garbled {
        list: u8,
    },
    /// The list was replaced: a reply of its source stated the version `now`, and not the version
    /// `had` that the list was opened with.
    Moved {
        list: u8,
        had: u64,
        now: u64,
    },
}

/// The name of a refusal.
fn refusal_name(refusal: Refusal) -> &'static [u8]
    ensures { result.now ≡ (refusal_row refusal).0 }
{
    match refusal {
        Refusal::ManyQueries { .. } => b"ManyQueries",
        Refusal::LongLine { .. } => b"LongLine",
        Refusal::Syntax { .. } => b"Syntax",
        Refusal::Number { .. } => b"Number",
        Refusal::TooManyLists { .. } => b"TooManyLists",
        Refusal::BadTheta { .. } => b"BadTheta",
        Refusal::TooManyNodes { .. } => b"TooManyNodes",
        Refusal::TooDeep { .. } => b"TooDeep",
        Refusal::TooBig { .. } => b"TooBig",
        Refusal::UnknownList { .. } => b"UnknownList",
        Refusal::NotOpened { .. } => b"NotOpened",
        Refusal::TooLarge { .. } => b"TooLarge",
        Refusal::CountsDiffer { .. } => b"CountsDiffer",
        Refusal::KAboveCount { .. } => b"KAboveCount",
        Refusal::NoRandom { .. } => b"NoRandom",
        Refusal::NoSorted { .. } => b"NoSorted",
        Refusal::Strangers { .. } => b"Strangers",
        Refusal::RoomFull { .. } => b"RoomFull",
        Refusal::OutOfOrder { .. } => b"OutOfOrder",
        Refusal::TooHigh { .. } => b"TooHigh",
        Refusal::Repeated { .. } => b"Repeated",
        Refusal::Clash { .. } => b"Clash",
        Refusal::Above { .. } => b"Above",
        Refusal::Missing { .. } => b"Missing",
        Refusal::ShortList { .. } => b"ShortList",
        Refusal::AsksFull { .. } => b"AsksFull",
        Refusal::Failed { .. } => b"Failed",
        Refusal::Garbled { .. } => b"Garbled",
        Refusal::Moved { .. } => b"Moved",
    }
}

/// The word of a field: a number in decimal, or the name of a list of the query.
fn word_of<'t>(query: Option<&'t Query>, field: FieldValue) -> Word<'t>
    ensures { word_text result ≡ field_word (names_of (option_copied query.entry)) (shown_field field) }
{
    match field {
        FieldValue::Number(number) => Word::Number(u64::from(number)),
        FieldValue::Wide(number) => Word::Number(number),
        FieldValue::List(list) => match query {
            Some(query) => Word::Text(name_of(&query.names, list)),
            None => Word::Text(b""),
        },
    }
}

/// Puts a space and a word for each field behind the bytes that wait.
fn put_fields<P: Put>(out: &mut P, query: Option<&Query>, fields: &[FieldValue])
    ensures { Puts (P.at out.old) (P.at out.new)
        (further (map (field_word (names_of (option_copied query.entry))) (map shown_field fields.now))) }
{
    for field in fields {
        put_further(out, word_of(query, *field));
    }
}

/// Puts the line of a refusal of the query line with this number behind the bytes that wait:
/// `refused`, the number, the refusal's name and its fields.
pub(crate) fn put_refusal<P: Put>(out: &mut P, line: u64, query: Option<&Query>, refusal: Refusal)
    ensures { Puts (P.at out.old) (P.at out.new)
        (refused_line line (names_of (option_copied query.entry)) refusal ++ 10 ∷ []) }
{
    out.put(b"refused");
    put_further(out, Word::Number(line));
    put_further(out, Word::Text(refusal_name(refusal)));
    let fields = fields_of(refusal);
    put_fields(out, query, fields.as_slice());
    out.put(b"\n");
}
