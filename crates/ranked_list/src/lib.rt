//! Rows, ranked lists and tables: what the sources of a query hold.
#![tactic(auto)]

mod item;
mod mem_list;
mod need;
mod objects;
mod order;
mod row;
mod table;

pub use item::{Item, Items};
pub use mem_list::MemList;
pub use need::Need;
pub use order::{RowFault, check_next};
pub use row::{PageRows, Row};
pub use table::is_table;
pub use topk_base::Memory;
