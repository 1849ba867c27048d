// Questions asked in order over any kind of refusal: the first "no" decides. Definitions and laws stand
// in specs/ and proofs/; here is what every call answers, and the trait of refusals.
#![tactic(auto)]

pub mod answers;
pub mod asking;

// What a call answers: the refusal's number or 0, a line, a length.
#[repr(C)]
#[derive(Clone, Copy, Debug, PartialEq, Eq)]
pub struct Answer {
    pub refusal: u64,
    pub line: u64,
    pub length: u64,
}
