//! Items of a paragraph, their two measures, and their levels, order and columns over slices.

#![tactic(auto)]

mod actions;
pub mod column;
pub mod columns;
pub mod contexts;
pub mod fault;
pub mod item;
mod joining;
pub mod measures;
pub mod order;
pub mod resolve;
