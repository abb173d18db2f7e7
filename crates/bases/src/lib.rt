// Base stores, which keep their cells themselves: in memory, or in bytes that are handed in.
#![tactic(auto)]

mod claims;
pub mod image;
pub mod table;

pub use image::Image;
pub use table::Table;
