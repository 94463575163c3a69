//! Copies between slices.

ghost use Rattle.std.specs.Prelude.{◌≡◌, ◌++◌, ◌≤◌, length, drop};

/// Copies `from` over the front of `to`.
pub(crate) fn copy_to_front(from: &[u8], to: &mut [u8])
    requires { length from.now ≤ length to.old }
    ensures { to.new ≡ from.now ++ drop (length from.now) to.old }
{
    let count = from.len();
    to[..count].copy_from_slice(from);
}
