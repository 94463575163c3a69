//! The first example, a query by the threshold algorithm over two lists of three objects.

use ranked_list::Item;
use topk_theory::Access;

/// Its certificate.
pub const FIRST_TEXT: &str =
    "certificate 1\nquery top 1 by sum(A,B) using ta\ncount 3\nanswer 2 1500 1500\nstop depth 2 sorted 4 random 3 cost 7\ns A 1 900\ns B 2 700\nr B 1 500\nr A 2 800\ns A 2 800\ns B 3 600\nr A 3 100\nend\n";

/// Its query.
pub const FIRST_QUERY: &[u8] = b"top 1 by sum(A,B) using ta";

/// Its answer.
pub const FIRST_ITEM: Item = Item {
    object: 2,
    low: 1500,
    high: 1500,
};

/// Its accesses.
pub const FIRST_ACCESSES: [Access; 7] = [
    crate::sorted_row!(0, 1, 900),
    crate::sorted_row!(1, 2, 700),
    crate::random_row!(1, 1, 500),
    crate::random_row!(0, 2, 800),
    crate::sorted_row!(0, 2, 800),
    crate::sorted_row!(1, 3, 600),
    crate::random_row!(0, 3, 100),
];
