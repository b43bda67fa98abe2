//! The rules of names: what a reference may be called, what an entry of a tree may be called, and how paths are split.
#![tactic(auto)]

mod category;
mod component_error;
mod component_rules;
mod full_name;
pub mod laws;
mod name_error;
mod name_rules;
mod namespace;
mod partial_name;
mod path;
mod pattern;
mod steps;

pub use category::Category;
pub use component_error::ComponentError;
pub use component_rules::{Protect, component};
pub use full_name::FullName;
pub use name_error::NameError;
pub use namespace::{Namespace, expand_namespace};
pub use partial_name::PartialName;
pub use path::{PathComponents, components};
pub use pattern::{Pattern, PatternError};
pub use steps::Steps;
