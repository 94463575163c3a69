//! The two forms of a target, and where its path ends.

ghost use Rattle.std.specs.Prelude.{◌≡◌, ◌≤◌, codes, length, map, option_map, Some};
ghost use Rattle.std.specs.List.{position, position_or_len};
ghost use Rattle.std.specs.Str.{bytes_eq};
ghost use Rattle.std.specs.Char.{to_ascii_lowercase};
ghost use Rattle.wire.specs.Targets.{shown, ends_authority, is_rooted, behind_scheme, behind_authority, rooted, cut_query, parts_of, IsBehind};

use topk_base::cut_at;

/// What a target names: a path, and the query part behind it.
#[derive(Clone, Copy, Debug)]
pub struct Target<'t> {
    /// The path, which begins with `/` and ends before the first `?`.
    pub path: &'t [u8],
    /// The bytes behind the first `?`, or none where there is no `?`.
    pub query: &'t [u8],
}

/// The path and the query part of a target, or None where it doesn't begin with `/`.
///
/// A target that begins with `http://`, in any letter case, is read as what follows its authority,
/// with a `/` before it where it doesn't begin with one. The authority ends before the first `/` or `?`,
/// and isn't compared with anything; where it is empty the target is read as it stands.
pub fn read_target(target: &[u8]) -> Option<Target<'_>>
    ensures { option_map shown result ≡ parts_of target.now }
{
    if let Some(rest) = behind_scheme(target) {
        if let Some(rest) = behind_authority(rest) {
            return Some(rooted_parts(rest));
        }
    }
    if is_rooted(target) {
        return Some(cut_query(target));
    }
    None
}

/// The bytes behind `http://`, in any letter case, where the target begins with it.
fn behind_scheme(target: &[u8]) -> Option<&[u8]>
    ensures { option_map (λ rest. rest.now) result ≡ behind_scheme target.now }
{
    let len = target.len().min(7);
    if !is_scheme(&target[..len]) {
        return None;
    }
    Some(&target[len..])
}

/// Whether a text is `http://`, in any letter case.
fn is_scheme(text: &[u8]) -> bool
    ensures { result ≡ bytes_eq (map to_ascii_lowercase text.now) (codes "http://") }
{
    text.eq_ignore_ascii_case(b"http://")
}

/// The bytes behind the authority, or None where that is empty.
fn behind_authority(bytes: &[u8]) -> Option<&[u8]>
    ensures rest { option_map (λ rest. rest.now) result ≡ behind_authority bytes.now }
    ensures front { IsBehind (option_map (λ rest. rest.now) result) }
{
    let len = authority_len(bytes);
    if len == 0 {
        return None;
    }
    Some(&bytes[len..])
}

/// How many bytes an authority has, which ends before the first `/` or `?`.
fn authority_len(bytes: &[u8]) -> usize
    ensures len { result ≡ position_or_len ends_authority bytes.now }
    ensures within { result ≤ length bytes.now }
{
    match authority_end(bytes) {
        Some(place) => place,
        None => bytes.len(),
    }
}

/// The place of the first `/` or `?`.
fn authority_end(bytes: &[u8]) -> Option<usize>
    ensures { result ≡ position ends_authority bytes.now }
{
    bytes.iter().position(|byte| ends_authority(*byte))
}

/// Whether an authority ends before this byte.
fn ends_authority(byte: u8) -> bool
    ensures { result ≡ ends_authority byte }
{
    byte == b'/' || byte == b'?'
}

/// The path and the query part of what follows an authority.
fn rooted_parts(rest: &[u8]) -> Target<'_>
    requires { IsBehind (Some rest.now) }
    ensures { shown result ≡ cut_query (rooted rest.now) }
{
    let Some((first, query)) = rest.split_first() else {
        return Target {
            path: b"/",
            query: b"",
        };
    };
    if *first == b'/' {
        return cut_query(rest);
    }
    Target { path: b"/", query }
}

/// Whether a text begins with `/`.
fn is_rooted(text: &[u8]) -> bool
    ensures { result ≡ is_rooted text.now }
{
    match text.split_first() {
        Some((first, _)) => *first == b'/',
        None => false,
    }
}

/// The path of a text, which ends before the first `?`, and the query part behind that.
fn cut_query(text: &[u8]) -> Target<'_>
    ensures { shown result ≡ cut_query text.now }
{
    match cut_at(text, b'?') {
        Some((path, query)) => Target { path, query },
        None => Target {
            path: text,
            query: b"",
        },
    }
}
