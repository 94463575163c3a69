//! Query lines over a catalog before they run: which sources they want, opening these, and admitting the lines over what became of them.
//!
//! The lines are read here too, and the sources put back.
#![tactic(auto)]

mod admissions;
mod catalogued;
mod closing;
mod entries;
mod opened;
mod opening;
mod reading;
mod taking;
mod wanted;

pub use admissions::{Admissions, admit_all};
pub use catalogued::{Catalogued, said_of};
pub use closing::put_back_all;
pub use opened::{OpenSources, Opening};
pub use opening::open_wanted;
pub use reading::{let_lines_go, read_lines};
pub use topk_base::Memory;
pub use wanted::mark_wanted;
