// A report on a catalogue, which is sheets joined end to end. (docs/WORKING.md, 15.1.)
#![tactic(auto)]

pub mod counting;
mod entries;
mod judging;
pub mod refusals;
pub mod reports;

use certificate::LONGEST_SHEET;
use section::SHEET_LINES;

// The most sheets of a catalogue, and the lines that these have.
pub const MOST_SHEETS: usize = 1000;

const MOST_LINES: usize = MOST_SHEETS * SHEET_LINES;

// Bytes more than one behind that do not change the report, where there are not too many sheets
// (`cut_catalogue` in proofs/Promises).
pub const LONGEST_CATALOGUE: usize = MOST_SHEETS * LONGEST_SHEET;

// How long a report can be (`longest_report_lem` in proofs/Promises).
pub const LONGEST_REPORT: usize = 27_088;

// The numbers that a sheet can be answered with are 0 to 11; an accepted sheet's line has three
// numbers, and the summary above these lines fourteen.
const ANSWERS: usize = 12;

const COLUMNS: usize = 3;

const SUMMARY: usize = 14;

// Why there is no report.
#[derive(Clone, Copy, Debug, PartialEq, Eq)]
pub enum ReportRefusal {
    // 14: there are no sheets, or over 1,000
    SheetCount,
    // 15: the sheet at this place fails the first question
    Misspelt(u64),
    // 12: the buffer has not the room that is needed
    Room(u64),
}
