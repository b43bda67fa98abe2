//! Listings of references.

mod error;
mod list;
mod platform;
mod reading;

pub use error::IterError;
pub use list::ReferenceList;
pub use platform::Platform;
pub(crate) use reading::store_error;
