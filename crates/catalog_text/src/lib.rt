//! Catalogs: which lists there are and where, in text of comma-separated values, and the places that they name.
//!
//! A place is the path of a file, or the address of a list at a host.
#![tactic(auto)]

mod bytes;
mod catalog;
mod fields;
mod laws;
mod place;
mod place_laws;
mod reading;

pub use catalog::{Catalog, CatalogFault, Entry};
pub use laws::a_fault_leaves_no_catalog;
pub use place::{Address, Location, location_of};
pub use place_laws::an_address_is_of_one_place;
pub use reading::read_catalog;
use std::alloc::{AllocError, AllocFailed};

impl From<AllocError> for CatalogFault {
    fn from(_: AllocError) -> CatalogFault {
        CatalogFault::Memory
    }
}

impl<T: Drop> From<AllocFailed<T>> for CatalogFault {
    fn from(_: AllocFailed<T>) -> CatalogFault {
        CatalogFault::Memory
    }
}
