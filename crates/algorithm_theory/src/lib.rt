//! The algorithms over whole tables: what each reads and answers, and how near the best that is. Definitions and laws, with no code.
//!
//! Fagin's algorithm (`fa_laws`), which the threshold algorithm is measured against.
//!
//! The threshold algorithm stopped before it has the best, within a factor or from a depth on (`within_laws`).
//!
//! The same over lists of which some can't be read in order (`restricted_laws`).
//!
//! How near the best the algorithms of Fagin, Lotem and Naor read (`near_best_laws`).
#![tactic(auto)]

pub mod fa_laws;
pub mod near_best_laws;
pub mod restricted_laws;
pub mod within_laws;
