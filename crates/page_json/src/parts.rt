//! The parts of a body's text.

ghost use Rattle.std.specs.Prelude.{◌≡◌, ◌++◌, OnOk};
ghost use Rattle.page_json.specs.Texts.{version_text};

use itoa::{Buffer, Integer};
use std::alloc::AllocError;

/// Adds a number to a text.
pub(crate) fn put_number<I: Integer>(text: &mut Vec<u8>, number: I) -> Result<(), AllocError>
    ensures { OnOk result (text.new.items ≡ text.old.items ++ I.text number) }
{
    text.extend_from_slice(Buffer::new().format(number).as_bytes())
}

/// Adds the end of a body, which states a version unless that is 0.
pub(crate) fn end_body(text: &mut Vec<u8>, version: u64) -> Result<(), AllocError>
    ensures { OnOk result (text.new.items ≡ text.old.items ++ version_text version) }
{
    if version == 0 {
        return Ok(text.push(b'}')?);
    }
    text.extend_from_slice(b",\"version\":")?;
    put_number(text, version)?;
    Ok(text.push(b'}')?)
}
