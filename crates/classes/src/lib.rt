// Reads bracketed classes and their members.
#![tactic(auto)]

mod classes;
mod members;
mod ranges;

pub use classes::{class_at, with_member};
