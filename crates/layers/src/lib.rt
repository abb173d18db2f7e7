// Layers, which stand over any store and are stores themselves.
#![tactic(auto)]

pub mod cache;
mod lines;
pub mod quota;

pub use cache::Cache;
pub use quota::Quota;
