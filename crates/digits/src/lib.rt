// Bytes written as digits, two to a byte, most significant first: the form of every line but remarks.
#![tactic(auto)]

pub mod line;
pub mod reading;
pub mod writing;

pub use line::{Bytes, Line};
pub use reading::{decode, digit_value};
