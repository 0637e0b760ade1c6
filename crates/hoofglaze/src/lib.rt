// What a C or Rust host links: each part's calls under C names, with numbers for answers.
// Assumes nothing.
#![tactic(auto)]

pub mod arithmetic;
pub mod clip;
pub mod equalise;
pub mod gate;
pub mod gate_in_place;
pub mod levelling;
pub mod lone;
pub mod recording;
pub mod saturator;
pub mod tone;
