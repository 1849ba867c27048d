// What the programs print, and how they read and write.
#![tactic(auto)]

pub mod printing;
pub mod programs;
pub mod streams;
