//! Lines of a direction and items, and what the rules make of them, as text.

#![tactic(auto)]

pub mod listing;
pub mod parse;
pub mod refusal;
mod text;
