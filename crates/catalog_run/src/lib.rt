//! The command `run`: query lines over the lists of a catalog, whose sources are taken of a shelf.
//!
//! The sources that the lines name are opened, the lines are admitted, their queries are run at the same time over the sources, and the sources
//! are put back. A line's outcome is what it came to before it ran, or how its query ended.
#![tactic(auto)]

mod command;
mod ended_lines;
mod line_outcomes;
mod lines;
mod made_text;
mod texts;

pub use batch_run::Settings;
pub use catalog_open::Memory;
pub use command::{refuse, run};
pub use ended_lines::let_go;
pub use lines::run_lines;
pub use query_admission::LineOutcome;
