// Spans for every choice of faulty servers, what may be by them, and who must be faulty.
#![tactic(auto)]

pub mod case;
pub mod choices;
pub mod row;
pub mod runs;
pub mod servers;
