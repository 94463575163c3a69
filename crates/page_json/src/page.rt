//! The body that says a page of a list's rows.

ghost use Rattle.std.specs.Prelude.{◌≡◌, ◌≤◌, ◌++◌, List, Some, None, Err, IfOk, OnOk, All, length, map, codes, option_and_then};
ghost use Rattle.std.specs.List.{join_with_byte};
ghost use Rattle.topk_base.specs.declared.TheConstants.{MAX_PAGE};
ghost use Rattle.ranked_list.specs.declared.row.Row.{Row};
ghost use Rattle.serde_json.specs.Find.{get};
ghost use Rattle.serde_json.specs.View.{view, items_view};
ghost use Rattle.page_json.specs.declared.fault.JsonFault.TheVariants.{NotABody};
ghost use Rattle.page_json.specs.declared.object.Versioned.{Versioned};
ghost use Rattle.page_json.specs.Bodies.{IsPageBody, Fits, page_of, list_of, rows_of, row_of};
ghost use Rattle.page_json.specs.Texts.{page_text, row_text};

use super::Memory;
use super::fault::JsonFault;
use super::grade::number_in;
use super::object::{Versioned, value_of, version_in};
use super::parts::{end_body, put_number};
use ranked_list::Row;
use serde_json::Value;
use std::alloc::{AllocError, Global};
use topk_base::MAX_PAGE;

/// The body that says rows of a list at a version, each as its object and its grade:
/// `{"rows":[[1,900],[2,800]],"version":7}`, and without `version` at version 0.
pub fn write_page(alloc: Global, version: u64, rows: &[Row]) -> Result<Vec<u8>, Memory>
    ensures text { IfOk result (λ bytes. bytes.items ≡ page_text version rows.now) }
    ensures reads_back { length rows.now ≤ MAX_PAGE → IfOk result (λ bytes. IsPageBody bytes.items (record { version = version; body = rows.now })) }
{
    let mut text = Vec::from_slice(alloc, b"{\"rows\":[")?;
    put_rows(&mut text, rows)?;
    text.push(b']')?;
    end_body(&mut text, version)?;
    Ok(text)
}

/// Adds rows to a text, with commas between them.
fn put_rows(text: &mut Vec<u8>, rows: &[Row]) -> Result<(), AllocError>
    ensures text { OnOk result (text.new.items ≡ text.old.items ++ join_with_byte 44 (map row_text rows.now)) }
    ensures fit { OnOk result (All Fits rows.now) }
{
    let Some((first, others)) = rows.split_first() else {
        return Ok(());
    };
    put_row(text, *first)?;
    for row in others {
        text.push(b',')?;
        put_row(text, *row)?;
    }
    Ok(())
}

/// Adds a row to a text.
fn put_row(text: &mut Vec<u8>, row: Row) -> Result<(), AllocError>
    ensures text { OnOk result (text.new.items ≡ text.old.items ++ row_text row) }
    ensures fits { Fits row }
{
    text.push(b'[')?;
    put_number(text, row.object)?;
    text.push(b',')?;
    put_number(text, row.grade)?;
    Ok(text.push(b']')?)
}

/// The rows that a body says, and at which version: an object in JSON (RFC 8259) whose `rows` is an
/// array of at most 10,000 arrays of exactly two whole numbers, an object and its grade, each written
/// without a fraction, an exponent or a minus sign and of at most 2^32 - 1. Of its `version` and of
/// other keys the same holds as for a size. Everything else is NotABody.
pub fn read_page(alloc: Global, bytes: &[u8]) -> Result<Versioned<Vec<Row>>, JsonFault>
    ensures read { IfOk result (λ said. IsPageBody bytes.now (record { version = said.version; body = said.body.items })) }
    ensures refused { result ≡ Err NotABody → (said : Versioned (List Row)) → ¬ IsPageBody bytes.now said }
{
    let object = value_of(alloc, bytes)?;
    page_in(alloc, &object)
}

/// The rows that an object says.
fn page_in(alloc: Global, object: &Value) -> Result<Versioned<Vec<Row>>, JsonFault>
    ensures read { IfOk result (λ said. page_of (view object.now) ≡ Some (record { version = said.version; body = said.body.items })) }
    ensures refused { result ≡ Err NotABody → page_of (view object.now) ≡ None }
{
    let Some(version) = version_in(object) else {
        return Err(JsonFault::NotABody);
    };
    let Some(list) = list_in(object) else {
        return Err(JsonFault::NotABody);
    };
    let body = rows_in(alloc, list)?;
    Ok(Versioned { version, body })
}

/// The array under `rows`, where it is short enough.
fn list_in(object: &Value) -> Option<&[Value]>
    ensures { option_and_then (λ list. rows_of (items_view list.now)) result ≡ option_and_then list_of (get (codes "rows") (view object.now)) }
{
    let list = object.get("rows")?.as_array()?;
    if list.len() > MAX_PAGE as usize {
        return None;
    }
    Some(list.as_slice())
}

/// The rows of an array.
fn rows_in(alloc: Global, list: &[Value]) -> Result<Vec<Row>, JsonFault>
    ensures read { IfOk result (λ rows. rows_of (items_view list.now) ≡ Some rows.items) }
    ensures refused { result ≡ Err NotABody → rows_of (items_view list.now) ≡ None }
{
    let mut rows = Vec::with_capacity(alloc, list.len())?;
    for value in list {
        let Some(row) = row_in(value) else {
            return Err(JsonFault::NotABody);
        };
        rows.push_reserved(row);
    }
    Ok(rows)
}

/// The row that an array of exactly two numbers is.
fn row_in(value: &Value) -> Option<Row>
    ensures { result ≡ row_of (view value.now) }
{
    let pair = value.as_array()?;
    if pair.len() != 2 {
        return None;
    }
    let object = number_in(&pair[0])?;
    let grade = number_in(&pair[1])?;
    Some(Row { object, grade })
}
