//! The bytes of hosts and of paths.

ghost use Rattle.std.specs.Prelude.{◌≡◌, ◌==◌, ◌||◌, ◌↔◌, IsTrue};
ghost use Rattle.std.specs.List.{list_all};
ghost use Rattle.catalog_text.specs.Places.{is_host_byte, is_path_byte, IsHost, IsPath};

use topk_base::MAX_HOST;

/// Whether a byte may stand in a host: an ASCII letter, a digit, `.` or `-`.
fn is_host_byte(byte: u8) -> bool
    ensures { result ≡ is_host_byte byte }
{
    byte.is_ascii_alphanumeric() || is_one_of(byte, b'.', b'-')
}

/// Whether a byte may stand in a path: one of a host, `/` or `_`.
fn is_path_byte(byte: u8) -> bool
    ensures { result ≡ is_path_byte byte }
{
    is_host_byte(byte) || is_one_of(byte, b'/', b'_')
}

/// Whether a byte is one of two.
fn is_one_of(byte: u8, one: u8, other: u8) -> bool
    ensures { result ≡ ((byte == one) || (byte == other)) }
{
    byte == one || byte == other
}

/// Whether each byte may stand in a host.
fn are_host_bytes(bytes: &[u8]) -> bool
    ensures { result ≡ list_all is_host_byte bytes.now }
{
    bytes.iter().all(|byte| is_host_byte(*byte))
}

/// Whether each byte may stand in a path.
fn are_path_bytes(bytes: &[u8]) -> bool
    ensures { result ≡ list_all is_path_byte bytes.now }
{
    bytes.iter().all(|byte| is_path_byte(*byte))
}

/// Whether a text is a host's name or address.
pub(crate) fn is_host(text: &[u8]) -> bool
    ensures { IsTrue result ↔ IsHost text.now }
{
    if text.is_empty() || text.len() > MAX_HOST {
        return false;
    }
    are_host_bytes(text)
}

/// Whether a text is a path.
pub(crate) fn is_path(text: &[u8]) -> bool
    ensures { IsTrue result ↔ IsPath text.now }
{
    if !text.starts_with(b"/") || text.ends_with(b"/") {
        return false;
    }
    are_path_bytes(text)
}
