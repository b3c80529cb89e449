//! A page of found entries, each shown on some lines of the screen, over a borrowed tree.

#![tactic(auto)]

pub mod calls;
pub mod entry;
pub mod fault;
pub mod making;
pub mod page;
pub mod sums;
