// Bytes: whole numbers in decimal, lines key=value for any table of keys, each ended by byte 10,
// written straight into a lent part of a buffer and read back; bytes split into lines. Whatever can be
// written is a `texts::Text`. A crate above holds its table as an array of keys (`keys::Key`).
// specs/Texts says which text lines are, specs/Reading what reading them gives.
#![tactic(auto)]

pub mod decimal;
pub mod keys;
pub mod reading;
pub mod rows;
pub mod splitting;
pub mod texts;
pub mod writing;
