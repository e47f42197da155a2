//! The catalog: the files that are listed with their properties, and tables of values.
#![tactic(auto)]

mod by_name;
mod catalog;
mod error;
mod fields;
mod files;
mod from_json;
mod laws;
mod reading;
mod rows;
mod tables;

pub use catalog::{Catalog, FileEntry};
pub use error::{CatalogError, CatalogPart};
pub use fields::Fields;
pub use laws::catalog_laws;
pub use reading::read_catalog;
