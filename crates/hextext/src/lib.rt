//! Bytes as lines of hexadecimal text, both ways.
#![tactic(auto)]

mod digits;
pub mod hex;
#[cfg(test)]
mod tests;
pub mod text;
