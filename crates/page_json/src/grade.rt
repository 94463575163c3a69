//! The body that says which grade an object has.

ghost use Rattle.std.specs.Prelude.{◌≡◌, ◌<◌, ◌^◌, ◌++◌, ℕ, Option, Err, IfOk, IfSome, OnOk};
ghost use Rattle.serde_json.specs.View.{view};
ghost use Rattle.page_json.specs.declared.fault.JsonFault.TheVariants.{NotABody};
ghost use Rattle.page_json.specs.declared.object.Versioned.{Versioned};
ghost use Rattle.page_json.specs.Bodies.{IsGradeBody, grade_of, grade_in as grade_of_value, whole_32};
ghost use Rattle.page_json.specs.Texts.{grade_text, grade_or_null};

use super::Memory;
use super::fault::JsonFault;
use super::object::{Versioned, value_of, version_in};
use super::parts::{end_body, put_number};
use serde_json::Value;
use std::alloc::{AllocError, Global};

/// The body that says which grade an object has at a version: `{"grade":500,"version":7}`, and
/// `{"grade":500}` at version 0; `null` stands for None, where the list hasn't the object.
pub fn write_grade(alloc: Global, version: u64, grade: Option<u32>) -> Result<Vec<u8>, Memory>
    ensures text { IfOk result (λ bytes. bytes.items ≡ grade_text version grade) }
    ensures reads_back { IfOk result (λ bytes. IsGradeBody bytes.items (record { version = version; body = grade })) }
{
    let mut text = Vec::from_slice(alloc, b"{\"grade\":")?;
    put_grade(&mut text, grade)?;
    end_body(&mut text, version)?;
    Ok(text)
}

/// Adds a grade to a text, or `null` for None.
fn put_grade(text: &mut Vec<u8>, grade: Option<u32>) -> Result<(), AllocError>
    ensures text { OnOk result (text.new.items ≡ text.old.items ++ grade_or_null grade) }
    ensures fits { IfSome grade (λ g. g < 2 ^ 32) }
{
    match grade {
        Some(grade) => put_number(text, grade),
        None => text.extend_from_slice(b"null"),
    }
}

/// The grade that a body says, and at which version: an object in JSON (RFC 8259) whose `grade` is
/// `null`, which is None, or a whole number, written without a fraction, an exponent or a minus sign,
/// of at most 2^32 - 1. Of its `version` and of other keys the same holds as for a size. Everything
/// else is NotABody.
pub fn read_grade(alloc: Global, bytes: &[u8]) -> Result<Versioned<Option<u32>>, JsonFault>
    ensures read { IfOk result (λ said. IsGradeBody bytes.now said) }
    ensures refused { result ≡ Err NotABody → (said : Versioned (Option ℕ)) → ¬ IsGradeBody bytes.now said }
{
    let object = value_of(alloc, bytes)?;
    grade_said(&object).ok_or(JsonFault::NotABody)
}

/// The grade that an object says.
fn grade_said(object: &Value) -> Option<Versioned<Option<u32>>>
    ensures { result ≡ grade_of (view object.now) }
{
    let body = grade_in(object.get("grade")?)?;
    let version = version_in(object)?;
    Some(Versioned { version, body })
}

/// A grade, or None for `null`.
fn grade_in(value: &Value) -> Option<Option<u32>>
    ensures { result ≡ grade_of_value (view value.now) }
{
    if value.is_null() {
        return Some(None);
    }
    let grade = number_in(value)?;
    Some(Some(grade))
}

/// A whole number of at most 2^32 - 1.
pub(crate) fn number_in(value: &Value) -> Option<u32>
    ensures { result ≡ whole_32 (view value.now) }
{
    let number = value.as_u64()?;
    u32::try_from(number).ok()
}
