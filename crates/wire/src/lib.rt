//! The refusals of a time box, and the messages that it takes, as bytes.
#![tactic(auto)]

pub mod input;
pub mod number;
pub mod refusal;
#[cfg(test)]
mod tests;
