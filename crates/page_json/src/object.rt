//! The object of a body: a key with what it says, and a version.

ghost use Rattle.std.specs.Prelude.{◌≡◌, Some, None, Err, IfOk, IsUtf8};
ghost use Rattle.serde_json.specs.Read.{read};
ghost use Rattle.serde_json.specs.View.{view};
ghost use Rattle.page_json.specs.declared.fault.JsonFault.TheVariants.{NotABody};
ghost use Rattle.page_json.specs.Bodies.{version_of};

use super::fault::JsonFault;
use serde_json::Value;
use std::alloc::Global;

/// What a body says, with the version of the list that it was said of.
#[derive(Drop)]
pub struct Versioned<T> {
    /// The version of the list: 0 where the body states none.
    pub version: u64,
    /// What was asked for.
    pub body: T,
}

/// The JSON value that the bytes are.
pub(crate) fn value_of(alloc: Global, bytes: &[u8]) -> Result<Value, JsonFault>
    ensures value { IfOk result (λ v. IsUtf8 bytes.now × (read bytes.now ≡ Some (view v))) }
    ensures refused { result ≡ Err NotABody → IsUtf8 bytes.now → read bytes.now ≡ None }
{
    match Value::from_slice(alloc, bytes) {
        Ok(value) => Ok(value),
        Err(error) if error.is_memory() => Err(JsonFault::Memory),
        Err(_) => Err(JsonFault::NotABody),
    }
}

/// The version that an object states: 0 where it states none, and None where what it states is no version.
pub(crate) fn version_in(object: &Value) -> Option<u64>
    ensures { result ≡ version_of (view object.now) }
{
    match object.get("version") {
        Some(version) => version.as_u64(),
        None => Some(0),
    }
}
