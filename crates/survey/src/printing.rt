// What the program prints for the bytes that it reads: specs/Printed.
ghost use Rattle.std.specs.Prelude.{◌≡◌, length};
ghost use Rattle.questions.specs.Buffers.{over};
ghost use Rattle.survey.specs.Printed.{kept_prints};

use catalogue::counting::LineCount;
use catalogue::{LONGEST_REPORT, MOST_SHEETS, ReportRefusal, reports};
use questions::answers::Reason;
use report::printing;

// Writes what is printed for an input at the start of out, and answers its length: these bytes of
// the input are kept, and these are its lines. The last clause is what lending out again, as a slice,
// needs.
pub fn survey_prints(kept: &[u8], lines: LineCount, out: &mut [u8; LONGEST_REPORT]) -> usize
    ensures value { result ≡ length (kept_prints kept.now lines) }
    ensures out_after { out.new ≡ over (kept_prints kept.now lines) out.old }
    ensures room { 27088 ≡ length out.new }
{
    if MOST_SHEETS < lines.sheet_count() {
        return printing::put_refusal(out, ReportRefusal::SheetCount.told());
    }
    printing::outcome_prints(reports::survey(kept, out), out)
}
