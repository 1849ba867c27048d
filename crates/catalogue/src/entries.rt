// The sheets of a catalogue in order: each is judged once, counted by its answer, and its row entered
// where it is accepted.
ghost use Rattle.std.specs.Prelude.{◌≡◌, ◌+◌, ◌<◌, ◌≤◌, [], ◌++◌, length, get_or, set, replicate, OnOk};
ghost use Rattle.std.specs.Iterator.{at_most};
ghost use Rattle.arrayvec.specs.ArrayVec.{array_vec_len};
ghost use Rattle.questions.specs.Asking.{first_of};
ghost use Rattle.catalogue.specs.Catalogues.{most_sheets, sheets_in};
ghost use Rattle.catalogue.specs.Outcome.{question15};
ghost use Rattle.catalogue.specs.Forms.{numbers_answered, sheet_length, FirstSheet, counts_of, rows_of, number_answered, rows_entered};

use crate::judging::Row;
use crate::{ANSWERS, MOST_SHEETS, ReportRefusal, judging};
use arrayvec::ArrayVec;
use certificate::Refusal;
use lines::splitting;
use section::SHEET_LINES;

// The rows of the accepted sheets.
pub type Rows = ArrayVec<Row, MOST_SHEETS>;

// How many bytes the first sheet has.
#[tactic(auto, using(crate::proofs::SheetLaws::first_length))]
fn sheet_length(s: &[u8]) -> usize
    ensures value { result ≡ sheet_length s.now }
    ensures upper_bound { result ≤ length s.now }
    ensures some { 0 < length s.now → 0 < result }
{
    let mut end = 0;
    for _ in 0..SHEET_LINES {
        end = splitting::line_end(s, end);
    }
    end
}

// The sheets of some bytes: each is as many lines as a sheet has, the last perhaps cut short.
#[derive(Drop)]
struct Sheets<'a> {
    rest: &'a [u8],
}

impl<'a> Iterator for Sheets<'a> {
    type Item = &'a [u8];

    ghost remaining = { λ s. at_most (length s.rest.now) };

    ghost next_gives = { λ s r t. FirstSheet s.rest.now r t.rest.now };

    fn next(&mut self) -> Option<&'a [u8]> {
        if self.rest.is_empty() {
            return None;
        }
        let (sheet, behind) = self.rest.split_at(sheet_length(self.rest));
        self.rest = behind;
        Some(sheet)
    }
}

// What sheets give: how many are answered with each number, and the rows of the accepted ones.
#[derive(Debug, Default, PartialEq, Eq, Drop)]
pub struct Entries {
    pub counts: [u64; ANSWERS],
    pub rows: Rows,
}

impl Entries {
    // Counts a sheet under the number that is answered, and enters the row of an accepted one.
    fn enter(&mut self, judged: Result<Row, Refusal>)
        requires number { number_answered judged < length numbers_answered }
        requires count_below { get_or self.old.counts (number_answered judged) 0 < most_sheets }
        requires room { array_vec_len self.old.rows < most_sheets }
        ensures counts { let k = number_answered judged in self.new.counts ≡ set self.old.counts k (get_or self.old.counts k 0 + 1) }
        ensures rows { self.new.rows.items ≡ self.old.rows.items ++ rows_entered judged }
    {
        self.counts[judging::number(judged) as usize] += 1;
        if let Ok(row) = judged {
            self.rows.push(row);
        }
    }

    // Question 15: judges the sheets of s in order, up to the first that fails the first question.
    pub fn enter_sheets(&mut self, s: &[u8]) -> Result<(), ReportRefusal>
        requires few_sheets { length (sheets_in s.now) ≤ most_sheets }
        requires no_counts { self.old.counts ≡ replicate (length numbers_answered) 0 }
        requires no_rows { self.old.rows.items ≡ [] }
        ensures finds { result ≡ first_of (question15 (sheets_in s.now)) }
        ensures counts { OnOk result (self.new.counts ≡ counts_of (sheets_in s.now)) }
        ensures rows { OnOk result (self.new.rows.items ≡ rows_of 1 (sheets_in s.now)) }
    {
        for (i, sheet) in (Sheets { rest: s }).enumerate() {
            let place = i as u64 + 1;
            let judged = judging::judge(sheet, place);
            if judging::is_misspelt(judged) {
                return Err(ReportRefusal::Misspelt(place));
            }
            self.enter(judged);
        }
        Ok(())
    }
}
