// The table of lip coefficients for the wall, and a quick lookup in it. (docs/WORKING.md, 15.2.)
#![tactic(auto)]

mod entries;
pub mod lookups;
mod refusals;
pub mod tables;

// The ratios of the entries in millionths, 0.350 to 0.600 in steps of 0.001, and how many there are.
const LEAST_RATIO: u64 = 350_000;

const MOST_RATIO: u64 = 600_000;

const STEP: u64 = 1_000;

const ENTRIES: usize = 251;

// How long the table's text is (`table_length_lem` in proofs/Promises).
pub const TABLE_LENGTH: usize = 3_514;

// Why no coefficient is told, or no table written.
#[derive(Clone, Copy, Debug, PartialEq, Eq)]
pub enum LipRefusal {
    // 16: the ratio is outside 0.350 to 0.600
    Ratio,
    // 12: the buffer has not the room that is needed
    Room(u64),
}

// What a lookup answers: the refusal's number or 0, a line, a length (both always 0), and the ends in
// millionths.
#[repr(C)]
#[derive(Clone, Copy, Debug, PartialEq, Eq)]
pub struct Coefficient {
    pub refusal: u64,
    pub line: u64,
    pub length: u64,
    pub lower: u64,
    pub upper: u64,
}
