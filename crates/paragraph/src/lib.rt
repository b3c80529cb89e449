//! A paragraph in mixed directions: its items, corrections to them, and what each correction changes on the screen.

#![tactic(auto)]

mod ask;
mod change;
mod column;
mod context;
mod edit;
pub mod fault;
mod level;
mod order;
pub mod outcome;
pub mod paragraph;
pub mod run;
mod scan;
pub mod span;
mod walk;
