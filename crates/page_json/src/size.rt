//! The body that says how many rows a list has.

ghost use Rattle.std.specs.Prelude.{◌≡◌, ℕ, Err, IfOk};
ghost use Rattle.serde_json.specs.View.{view};
ghost use Rattle.page_json.specs.declared.fault.JsonFault.TheVariants.{NotABody};
ghost use Rattle.page_json.specs.declared.object.Versioned.{Versioned};
ghost use Rattle.page_json.specs.Bodies.{IsSizeBody, size_of};
ghost use Rattle.page_json.specs.Texts.{size_text};

use super::Memory;
use super::fault::JsonFault;
use super::object::{Versioned, value_of, version_in};
use super::parts::{end_body, put_number};
use serde_json::Value;
use std::alloc::Global;

/// The body that says how many rows a list has at a version: `{"count":3,"version":7}`, and
/// `{"count":3}` at version 0.
pub fn write_size(alloc: Global, version: u64, count: u64) -> Result<Vec<u8>, Memory>
    ensures text { IfOk result (λ bytes. bytes.items ≡ size_text version count) }
    ensures reads_back { IfOk result (λ bytes. IsSizeBody bytes.items (record { version = version; body = count })) }
{
    let mut text = Vec::from_slice(alloc, b"{\"count\":")?;
    put_number(&mut text, count)?;
    end_body(&mut text, version)?;
    Ok(text)
}

/// How many rows a list has by a body, and at which version: an object in JSON (RFC 8259) whose
/// `count` is a whole number, written without a fraction, an exponent or a minus sign, of at most
/// 2^64 - 1. Its `version` is such a number as well, and 0 where it isn't there. Other keys are free;
/// of a key twice the last counts. Everything else is NotABody.
pub fn read_size(alloc: Global, bytes: &[u8]) -> Result<Versioned<u64>, JsonFault>
    ensures read { IfOk result (λ said. IsSizeBody bytes.now said) }
    ensures refused { result ≡ Err NotABody → (said : Versioned ℕ) → ¬ IsSizeBody bytes.now said }
{
    let object = value_of(alloc, bytes)?;
    size_in(&object).ok_or(JsonFault::NotABody)
}

/// The size that an object says.
fn size_in(object: &Value) -> Option<Versioned<u64>>
    ensures { result ≡ size_of (view object.now) }
{
    let body = object.get("count")?.as_u64()?;
    let version = version_in(object)?;
    Some(Versioned { version, body })
}
