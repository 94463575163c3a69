//! The fields of a refusal, as they are written.

ghost use Rattle.std.specs.Prelude.{◌≡◌, map};
ghost use Rattle.cert_text.specs.Refusal.{refusal_row};
ghost use Rattle.cert_text.specs.Writing.{shown_field, shown_fields};

use super::refusal::Refusal;
use FieldValue::{List, Number, Wide};

/// A field of a refusal.
#[derive(Clone, Copy)]
pub(crate) enum FieldValue {
    /// A number of 32 bits.
    Number(u32),
    /// A number of 64 bits.
    Wide(u64),
    /// A list, by its number in the query.
    List(u8),
}

/// One to four fields of a refusal, in their order.
#[derive(Clone, Copy)]
pub(crate) enum Fields {
    One([FieldValue; 1]),
    Two([FieldValue; 2]),
    Three([FieldValue; 3]),
    Four([FieldValue; 4]),
}

impl Fields {
    /// The fields, in their order.
    pub(crate) fn as_slice(&self) -> &[FieldValue]
        ensures { map shown_field result.now ≡ shown_fields self.now }
    {
        match self {
            Fields::One(fields) => fields.as_slice(),
            Fields::Two(fields) => fields.as_slice(),
            Fields::Three(fields) => fields.as_slice(),
            Fields::Four(fields) => fields.as_slice(),
        }
    }
}

/// The fields of a refusal, in their order.
pub(crate) fn fields_of(refusal: Refusal) -> Fields
    ensures { shown_fields result ≡ (refusal_row refusal).1 }
{
    match refusal {
        Refusal::ManyQueries { limit: n }
        | Refusal::LongLine { limit: n }
        | Refusal::Syntax { at: n }
        | Refusal::Number { at: n }
        | Refusal::TooManyLists { at: n }
        | Refusal::TooBig { node: n }
        | Refusal::RoomFull { room: n } => Fields::One([Number(n)]),
        Refusal::TooManyNodes { nodes: n } | Refusal::TooDeep { depth: n } => {
            Fields::One([Wide(n)])
        }
        Refusal::BadTheta { p, q } => Fields::Two([Number(p), Number(q)]),
        Refusal::KAboveCount { k, n } => Fields::Two([Number(k), Number(n)]),
        Refusal::Strangers { object, count } => Fields::Two([Number(object), Number(count)]),
        Refusal::UnknownList { list }
        | Refusal::NotOpened { list }
        | Refusal::NoRandom { list }
        | Refusal::NoSorted { list }
        | Refusal::Failed { list }
        | Refusal::Garbled { list } => Fields::One([List(list)]),
        Refusal::TooLarge { list, count } => Fields::Two([List(list), Wide(count)]),
        Refusal::Missing { list, object: n } | Refusal::AsksFull { list, kept: n } => {
            Fields::Two([List(list), Number(n)])
        }
        Refusal::TooHigh {
            list,
            place: a,
            grade: b,
        }
        | Refusal::Repeated {
            list,
            object: a,
            place: b,
        }
        | Refusal::ShortList {
            list,
            stated: a,
            got: b,
        } => { Fields::Three([List(list), Number(a), Number(b)]) }
        Refusal::OutOfOrder {
            list,
            place: a,
            before: b,
            after: c,
        }
        | Refusal::Clash {
            list,
            object: a,
            sorted: b,
            random: c,
        }
        | Refusal::Above {
            list,
            object: a,
            grade: b,
            bottom: c,
        } => { Fields::Four([List(list), Number(a), Number(b), Number(c)]) }
        Refusal::Moved { list, had, now } => Fields::Three([List(list), Wide(had), Wide(now)]),
        Refusal::CountsDiffer { list, n, other, m } => {
            Fields::Four([List(list), Number(n), List(other), Number(m)])
        }
    }
}
