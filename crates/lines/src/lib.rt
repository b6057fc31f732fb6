//! The lines of a time box's record, read from bytes and from text.
#![tactic(auto)]

pub mod line;
pub mod text;
