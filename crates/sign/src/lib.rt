//! Signatures over replies: what a scheme of signatures promises, and a stand-in for one.
#![tactic(auto)]

pub mod hmac;
pub mod reply;
pub mod scheme;
#[cfg(test)]
mod tests;
