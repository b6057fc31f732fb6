//! The lines of a time box's record, written as bytes.
#![tactic(auto)]

#[cfg(test)]
mod tests;
pub mod write;
