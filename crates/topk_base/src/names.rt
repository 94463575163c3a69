//! Names of lists.

ghost use Rattle.std.specs.Prelude.{◌≡◌, ◌↔◌, IsTrue};
ghost use Rattle.std.specs.List.{list_all};
ghost use Rattle.topk_base.specs.Names.{is_name_byte, IsName};

/// Whether a byte may stand in a name after its first: an ASCII letter, a digit or `_`.
pub fn is_name_byte(byte: u8) -> bool
    ensures { result ≡ is_name_byte byte }
{
    byte.is_ascii_alphanumeric() || byte == b'_'
}

/// Whether each byte may stand in a name after its first.
fn are_name_bytes(bytes: &[u8]) -> bool
    ensures { result ≡ list_all is_name_byte bytes.now }
{
    bytes.iter().all(|byte| is_name_byte(*byte))
}

/// Whether a text is a name: 1 to 32 bytes, an ASCII letter and then ASCII letters, digits and `_`.
pub fn is_name(text: &[u8]) -> bool
    ensures { IsTrue result ↔ IsName text.now }
{
    let Some((first, rest)) = text.split_first() else {
        return false;
    };
    if rest.len() >= 32 || !first.is_ascii_alphabetic() {
        return false;
    }
    are_name_bytes(rest)
}
