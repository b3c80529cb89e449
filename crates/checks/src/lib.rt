//! Runs of the tree and the paragraph on worked cases. What they should do is proved elsewhere; here it is seen.

#![tactic(auto)]

#[cfg(test)]
mod edits;
pub mod holders;
#[cfg(test)]
mod trees;
