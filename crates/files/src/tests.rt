//! The libraries at the edges, run. They stand here for all four, since a crate that has tests is
//! proved a second time with them.
mod model_files;
mod plants;
mod rows;
mod values;
