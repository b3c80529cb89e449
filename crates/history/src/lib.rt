//! The law over whole histories of calls.

#![tactic(auto)]

mod change;
pub mod history;
pub mod law;
mod question;
pub mod request;
