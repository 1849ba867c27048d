// Reading a sheet, the questions on it, writing and checking its certificate. (docs/WORKING.md, 14
// and 15.)
#![tactic(auto)]

pub mod certificates;
pub mod keys;
pub mod reading;
pub mod refusals;
pub mod verdicts;
mod writing;

use section::SHEET_LINES;

// The lines of the figures, and of a certificate, which has its sheet's lines above them.
pub const FIGURE_LINES: usize = 6;

pub const CERTIFICATE_LINES: usize = SHEET_LINES + FIGURE_LINES;

// How long the text of a sheet and of a certificate can be (`longest_sheet` and
// `longest_certificate` in proofs/Lengths). Bytes more than one behind that do not change what
// reading gives (`cut_sheet`, `cut_certificate`).
pub const LONGEST_SHEET: usize = 184;

pub const LONGEST_CERTIFICATE: usize = 289;

// Flange 1 or 2 of a sheet.
#[derive(Clone, Copy, Debug, PartialEq, Eq)]
pub enum Flange {
    One,
    Two,
}

// Why a sheet, or a certificate, is refused: a case for each question, with the line or the length
// that varies.
#[derive(Clone, Copy, Debug, PartialEq, Eq)]
pub enum Refusal {
    // 1: a line is missing or misspelt
    Spelling(u64),
    // 2: a value is out of its range
    Range(u64),
    // 3: the core is thicker than the nominal thickness
    Thickness,
    // 4: a flange is wider than 60 times the thickness
    FlangeWidth(u64),
    // 5: the lip is longer than 50 times the thickness
    LipLength,
    // 6: the web is deeper than 500 times the thickness
    Depth,
    // 7: the lip is too short or too long for a flange
    LipRatio(u64),
    // 8: the radius is too large
    Radius,
    // 9: the lip is too long for a flange, on the mid-lines
    MidLineRatio(u64),
    // 10: the lips of a C meet
    Form,
    // 11: the area's upper end passes the allowance
    Allowance,
    // 12: the buffer has not the room that is needed
    Room(u64),
    // 13: a figure differs from the working
    Figure(u64),
}
