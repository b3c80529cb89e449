//! A balanced tree of elements in a table of rows that its caller lends.

#![tactic(auto)]

mod around;
mod balance;
mod below;
mod build;
mod calls;
mod copy;
pub mod fault;
pub mod history;
mod insert;
pub mod measure;
pub mod pair;
mod pool;
mod remove;
mod replace;
pub mod request;
pub mod row;
mod seek;
mod set;
mod total;
pub mod tree;
