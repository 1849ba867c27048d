// The report on a catalogue. (docs/WORKING.md, 15.1.)
ghost use Rattle.std.specs.Prelude.{◌≡◌, ◌≤◌, ◌<◌, length};
ghost use Rattle.std.specs.List.{sum_by};
ghost use Rattle.questions.specs.Outcomes.{answer_in, length_in, buffer_in};
ghost use Rattle.lines.specs.Decimal.{row_text};
ghost use Rattle.catalogue.specs.Catalogues.{most_sheets, longest_report, sheets_in};
ghost use Rattle.catalogue.specs.Refusals.{report_answer};
ghost use Rattle.catalogue.specs.Outcome.{report_outcome};
ghost use Rattle.catalogue.specs.Forms.{word_end, numbers_of, summary_of, report_text, fitted_report};

use crate::counting::LineCount;
use crate::entries::Entries;
use crate::judging::Row;
use crate::{ANSWERS, COLUMNS, LONGEST_REPORT, MOST_SHEETS, ReportRefusal, SUMMARY};
use lines::texts::{Behind, Text};
use lines::{rows, texts};
use questions::Answer;
use questions::answers::answered;
use questions::asking::ask;

impl Row {
    fn numbers(&self) -> [u64; COLUMNS]
        ensures { result ≡ numbers_of self.now }
    {
        [self.place, self.area, self.axial]
    }
}

impl Text for Row {
    ghost bytes = { λ r. row_text (numbers_of r) };

    fn length(&self) -> usize {
        rows::Row(&self.numbers()).length()
    }

    fn put(&self, out: &mut [u8]) -> usize {
        rows::Row(&self.numbers()).put(out)
    }
}

// The numbers above the rows.
fn summary(sheets: u64, counts: [u64; ANSWERS], area: u64, axial: u64) -> [u64; SUMMARY]
    ensures { result ≡ summary_of sheets counts area axial }
{
    [
        sheets, counts[0], counts[2], counts[3], counts[4], counts[5], counts[6], counts[7],
        counts[8], counts[9], counts[10], counts[11], area, axial,
    ]
}

// The sums of the areas and of the axial resistances.
fn sums(rows: &[Row]) -> (u64, u64)
    requires areas_fit { sum_by (λ r. r.area) rows.now < word_end }
    requires axials_fit { sum_by (λ r. r.axial) rows.now < word_end }
    ensures { result ≡ (sum_by (λ r. r.area) rows.now, sum_by (λ r. r.axial) rows.now) }
{
    (
        rows.iter().map(|row| row.area).sum(),
        rows.iter().map(|row| row.axial).sum(),
    )
}

// Question 12: the report is written if it fits the buffer; answers its length. It is the numbers above
// the rows, one to a line, and the rows.
#[tactic(auto, using(crate::proofs::ReportLaws::putting))]
fn put(summary: [u64; SUMMARY], rows: &[Row], buffer: &mut [u8]) -> Result<usize, ReportRefusal>
    requires { length (report_text summary rows.now) ≤ longest_report }
    ensures value { result ≡ length_in (fitted_report summary rows.now) buffer.old }
    ensures buffer_after { buffer.new ≡ buffer_in (fitted_report summary rows.now) buffer.old }
{
    let report = Behind(
        rows::Rows {
            numbers: &summary,
            width: 1,
        },
        rows,
    );
    Ok(texts::write_fitted(&report, LONGEST_REPORT, buffer)?)
}

// The report on so many sheets, which are not too many.
#[tactic(auto, using(crate::proofs::Reporting::misspelt))]
fn report_on(sheets: &[u8], n: usize, buffer: &mut [u8]) -> Result<usize, ReportRefusal>
    requires all_sheets { n ≡ length (sheets_in sheets.now) }
    requires countable { (1 ≤ n) × (n ≤ most_sheets) }
    ensures value { result ≡ length_in (report_outcome sheets.now) buffer.old }
    ensures buffer_after { buffer.new ≡ buffer_in (report_outcome sheets.now) buffer.old }
{
    let mut entries = Entries::default();
    entries.enter_sheets(sheets)?;
    let rows: &[Row] = &entries.rows;
    let (area, axial) = sums(rows);
    put(summary(n as u64, entries.counts, area, axial), rows, buffer)
}

// The length of the report on a catalogue, written into the buffer, or the refusal.
pub fn survey(sheets: &[u8], buffer: &mut [u8]) -> Result<usize, ReportRefusal>
    ensures value { result ≡ length_in (report_outcome sheets.now) buffer.old }
    ensures buffer_after { buffer.new ≡ buffer_in (report_outcome sheets.now) buffer.old }
{
    let n = LineCount::none().count_on(sheets).sheet_count();
    // Question 14, before any sheet is read.
    ask((1..=MOST_SHEETS).contains(&n), ReportRefusal::SheetCount)?;
    report_on(sheets, n, buffer)
}

// The report on a catalogue, into the buffer.
pub fn report(sheets: &[u8], buffer: &mut [u8]) -> Answer
    ensures value { result ≡ answer_in report_answer (report_outcome sheets.now) buffer.old }
    ensures buffer_after { buffer.new ≡ buffer_in (report_outcome sheets.now) buffer.old }
{
    answered(survey(sheets, buffer))
}
