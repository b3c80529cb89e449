//! The rules that give each item of a paragraph its level, and the contexts that give the same level from both sides.

#![tactic(auto)]

pub mod claims;
pub mod classes;
pub mod contexts;

pub use classes::{Class, Direction, Side, Strong};
pub use contexts::{First, Kind, Left, Next, Right};
