//! Accesses in one line each: a function, and macros for constants, in which no call may stand.

ghost use Rattle.std.specs.Prelude.{◌≡◌};

use topk_theory::Access;

/// A sorted access.
pub const fn sorted(list: u8, object: u32, grade: u32) -> Access
    ensures { result ≡ Access.Sorted list object grade }
{
    Access::Sorted {
        list,
        object,
        grade,
    }
}

/// A sorted access in a constant.
#[macro_export]
macro_rules! sorted_row {
    ($list:expr, $object:expr, $grade:expr) => {
        $crate::Access::Sorted {
            list: $list,
            object: $object,
            grade: $grade,
        }
    };
}

/// A random access in a constant.
#[macro_export]
macro_rules! random_row {
    ($list:expr, $object:expr, $grade:expr) => {
        $crate::Access::Random {
            list: $list,
            object: $object,
            grade: $grade,
        }
    };
}
