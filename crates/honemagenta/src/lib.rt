// The calls for programs in other languages; include/honemagenta.h declares them.
#![tactic(auto)]

ghost use Rattle.std.specs.Prelude.{◌≡◌, [], ◌∷◌};
ghost use Rattle.section.specs.Sheets.{sheet_of};
ghost use Rattle.certificate.specs.Outcome.{outcome_of, outcome, check_outcome};
ghost use Rattle.questions.specs.Outcomes.{answer_of, answer_in, buffer_in};
ghost use Rattle.certificate.specs.Refusals.{refusal_answer};
ghost use Rattle.catalogue.specs.Outcome.{report_outcome};
ghost use Rattle.catalogue.specs.Refusals.{report_answer};
ghost use Rattle.lip_table.specs.Outcome.{lip_answer, table_outcome, coefficient_at};

use catalogue::reports;
use certificate::certificates;
use lip_table::{Coefficient, lookups, tables};
use questions::Answer;

// The certificate of a sheet's bytes, into the buffer.
#[unsafe(no_mangle)]
pub extern "C" fn hm_certificate_write(sheet: &[u8], buffer: &mut [u8]) -> Answer
    ensures value { result ≡ answer_in refusal_answer (outcome sheet.now) buffer.old }
    ensures buffer_after { buffer.new ≡ buffer_in (outcome sheet.now) buffer.old }
{
    certificates::write(sheet, buffer)
}

// Whether a certificate is the one written for its own sheet.
#[unsafe(no_mangle)]
pub extern "C" fn hm_certificate_check(certificate: &[u8]) -> Answer
    ensures { result ≡ answer_of refusal_answer (check_outcome certificate.now) }
{
    certificates::check(certificate)
}

// The certificate of a sheet's numbers, into the buffer; form is 0 for C and 1 for Z.
#[unsafe(no_mangle)]
pub extern "C" fn hm_certificate_from_numbers(
    form: u64,
    h: u64,
    b1: u64,
    b2: u64,
    c: u64,
    r: u64,
    tnom: u64,
    t: u64,
    fyb: u64,
    gm0: u64,
    rounds: u64,
    allow: u64,
    fine: u64,
    buffer: &mut [u8],
) -> Answer
    ensures value { result ≡ answer_in refusal_answer
        (outcome_of (sheet_of (form ∷ h ∷ b1 ∷ b2 ∷ c ∷ r ∷ tnom ∷ t ∷ fyb ∷ gm0 ∷ rounds ∷ allow ∷ fine ∷ [])))
        buffer.old }
    ensures buffer_after { buffer.new ≡ buffer_in
        (outcome_of (sheet_of (form ∷ h ∷ b1 ∷ b2 ∷ c ∷ r ∷ tnom ∷ t ∷ fyb ∷ gm0 ∷ rounds ∷ allow ∷ fine ∷ [])))
        buffer.old }
{
    let numbers = [
        form, h, b1, b2, c, r, tnom, t, fyb, gm0, rounds, allow, fine,
    ];
    certificates::from_numbers(numbers, buffer)
}

// A report on sheets joined end to end.
#[unsafe(no_mangle)]
pub extern "C" fn hm_catalogue_report(sheets: &[u8], buffer: &mut [u8]) -> Answer
    ensures value { result ≡ answer_in report_answer (report_outcome sheets.now) buffer.old }
    ensures buffer_after { buffer.new ≡ buffer_in (report_outcome sheets.now) buffer.old }
{
    reports::report(sheets, buffer)
}

// The table of lip coefficients.
#[unsafe(no_mangle)]
pub extern "C" fn hm_lip_table(buffer: &mut [u8]) -> Answer
    ensures value { result ≡ answer_in lip_answer table_outcome buffer.old }
    ensures buffer_after { buffer.new ≡ buffer_in table_outcome buffer.old }
{
    tables::write(buffer)
}

// The two ends between which a lip's coefficient lies, for a ratio in millionths.
#[unsafe(no_mangle)]
pub extern "C" fn hm_lip_coefficient(ratio: u64) -> Coefficient
    ensures { result ≡ coefficient_at ratio }
{
    lookups::coefficient(ratio)
}
