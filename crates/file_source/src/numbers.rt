//! Numbers in the fields of a list file.

ghost use Rattle.std.specs.Prelude.{◌≡◌};
ghost use Rattle.file_source.specs.ListFile.{field_number};

use topk_base::{are_digits, value_of_digits};

/// The number that a field of 1 to 10 digits spells, leading zeros among them, where it is at most
/// 4,294,967,295.
pub(crate) fn field_number(field: &[u8]) -> Option<u32>
    ensures { result ≡ field_number field.now }
{
    if field.is_empty() || field.len() > 10 {
        return None;
    }
    if !are_digits(field) {
        return None;
    }
    match value_of_digits(field) {
        Some(value) if value <= 4_294_967_295 => Some(value as u32),
        _ => None,
    }
}
