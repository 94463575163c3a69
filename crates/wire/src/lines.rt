//! The header lines of a head, by their names.

ghost use Rattle.std.specs.Prelude.{◌≡◌, ◌&&◌, ◌||◌, not, length, map, codes, All, option_map};
ghost use Rattle.std.specs.List.{list_all};
ghost use Rattle.std.specs.Str.{bytes_eq};
ghost use Rattle.std.specs.Char.{to_ascii_lowercase};
ghost use Rattle.httparse.specs.Spans.{IsHeaderWithin, header_bytes};
ghost use Rattle.wire.specs.Asking.{name_bytes};
ghost use Rattle.wire.specs.Bodies.{is_chunked};
ghost use Rattle.wire.specs.Heads.{is_named, count_named, all_named, first_named, is_host_byte, keeps_host_rule};

use httparse::spans::HeaderSpan;

/// The names of the header lines that are looked at.
#[derive(Clone, Copy, Debug, PartialEq, Eq)]
pub(crate) enum Name {
    Host,
    TransferEncoding,
    ContentLength,
}

/// Whether a text is this name, in any letter case.
fn is_name(text: &[u8], name: Name) -> bool
    ensures { result ≡ bytes_eq (map to_ascii_lowercase text.now) (name_bytes name) }
{
    match name {
        Name::Host => text.eq_ignore_ascii_case(b"host"),
        Name::TransferEncoding => text.eq_ignore_ascii_case(b"transfer-encoding"),
        Name::ContentLength => text.eq_ignore_ascii_case(b"content-length"),
    }
}

/// How many header lines have this name.
pub(crate) fn count_named(came: &[u8], lines: &[HeaderSpan], name: Name) -> usize
    requires { All (IsHeaderWithin (length came.now)) lines.now }
    ensures { result ≡ count_named (name_bytes name) (map (header_bytes came.now) lines.now) }
{
    let mut count = 0;
    for line in lines {
        if is_name(line.name.of(came), name) {
            count += 1;
        }
    }
    count
}

/// The value of the first header line of this name.
pub(crate) fn first_named<'a>(came: &'a [u8], lines: &[HeaderSpan], name: Name) -> Option<&'a [u8]>
    requires { All (IsHeaderWithin (length came.now)) lines.now }
    ensures { option_map (λ value. value.now) result ≡ first_named (name_bytes name) (map (header_bytes came.now) lines.now) }
{
    let (line, rest) = lines.split_first()?;
    if is_name(line.name.of(came), name) {
        return Some(line.value.of(came));
    }
    first_named(came, rest, name)
}

/// Whether the values of all header lines of this name are this one.
pub(crate) fn are_all(came: &[u8], lines: &[HeaderSpan], name: Name, value: &[u8]) -> bool
    requires { All (IsHeaderWithin (length came.now)) lines.now }
    ensures { result ≡ all_named (name_bytes name) (λ other. bytes_eq other value.now) (map (header_bytes came.now) lines.now) }
{
    let mut are_same = true;
    for line in lines {
        are_same = both(are_same, is_value(came, *line, name, value));
    }
    are_same
}

/// Whether a header line has this value or another name.
fn is_value(came: &[u8], line: HeaderSpan, name: Name, value: &[u8]) -> bool
    requires { IsHeaderWithin (length came.now) line }
    ensures { result ≡ (not (is_named (name_bytes name) (header_bytes came.now line)) || bytes_eq (header_bytes came.now line).1 value.now) }
{
    !is_name(line.name.of(came), name) || line.value.of(came) == value
}

/// Whether the values of all Transfer-Encoding lines are `chunked`, in any letter case.
pub(crate) fn are_chunked(came: &[u8], lines: &[HeaderSpan]) -> bool
    requires { All (IsHeaderWithin (length came.now)) lines.now }
    ensures { result ≡ all_named (codes "transfer-encoding") is_chunked (map (header_bytes came.now) lines.now) }
{
    let mut are_chunked = true;
    for line in lines {
        are_chunked = both(are_chunked, is_coding(came, *line));
    }
    are_chunked
}

/// Whether a header line has the value `chunked` or another name than Transfer-Encoding.
fn is_coding(came: &[u8], line: HeaderSpan) -> bool
    requires { IsHeaderWithin (length came.now) line }
    ensures { result ≡ (not (is_named (codes "transfer-encoding") (header_bytes came.now line)) || is_chunked (header_bytes came.now line).1) }
{
    !is_name(line.name.of(came), Name::TransferEncoding) || is_chunked(line.value.of(came))
}

/// Whether a value is `chunked`, in any letter case.
fn is_chunked(value: &[u8]) -> bool
    ensures { result ≡ is_chunked value.now }
{
    value.eq_ignore_ascii_case(b"chunked")
}

/// Whether the rule on Host lines is kept in a head of this minor version.
pub(crate) fn keeps_host_rule(came: &[u8], lines: &[HeaderSpan], minor: u8) -> bool
    requires { All (IsHeaderWithin (length came.now)) lines.now }
    ensures { result ≡ keeps_host_rule minor (map (header_bytes came.now) lines.now) }
{
    let count = count_named(came, lines, Name::Host);
    let is_counted = if minor == 1 { count == 1 } else { count <= 1 };
    is_counted && are_hosts(came, lines)
}

/// Whether the values of all Host lines have only bytes of hosts.
fn are_hosts(came: &[u8], lines: &[HeaderSpan]) -> bool
    requires { All (IsHeaderWithin (length came.now)) lines.now }
    ensures { result ≡ all_named (codes "host") (list_all is_host_byte) (map (header_bytes came.now) lines.now) }
{
    let mut are_hosts = true;
    for line in lines {
        are_hosts = both(are_hosts, is_host(came, *line));
    }
    are_hosts
}

/// Whether a header line's value has only bytes of hosts, or another name.
fn is_host(came: &[u8], line: HeaderSpan) -> bool
    requires { IsHeaderWithin (length came.now) line }
    ensures { result ≡ (not (is_named (codes "host") (header_bytes came.now line)) || list_all is_host_byte (header_bytes came.now line).1) }
{
    !is_name(line.name.of(came), Name::Host) || are_host_bytes(line.value.of(came))
}

/// Whether each byte may stand in the value of a Host line.
fn are_host_bytes(value: &[u8]) -> bool
    ensures { result ≡ list_all is_host_byte value.now }
{
    value.iter().all(|byte| is_host_byte(*byte))
}

/// Whether both hold.
fn both(first: bool, second: bool) -> bool
    ensures { result ≡ (first && second) }
{
    first && second
}

/// Whether a byte may stand in the value of a Host line.
fn is_host_byte(byte: u8) -> bool
    ensures { result ≡ is_host_byte byte }
{
    byte.is_ascii_alphanumeric() || b"-._~%!$&'()*+,;=:[]".contains(&byte)
}
