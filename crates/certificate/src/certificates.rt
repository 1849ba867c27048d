// Writing and checking certificates. (docs/WORKING.md, 14.)
ghost use Rattle.std.specs.Prelude.{◌≤◌, ◌<◌, ◌≡◌, length, not, IfSome};
ghost use Rattle.std.specs.List.{position_from, zip};
ghost use Rattle.questions.specs.Outcomes.{answer_of, answer_in, length_of, length_in, buffer_in};
ghost use Rattle.section.specs.Sheets.{sheet_of};
ghost use Rattle.lines.specs.Reading.{values};
ghost use Rattle.lines.specs.Texts.{longest, Words};
ghost use Rattle.certificate.specs.Keys.{certificate_fields};
ghost use Rattle.certificate.specs.declared.Refusal.TheVariants.{Room};
ghost use Rattle.certificate.specs.Refusals.{refusal_answer};
ghost use Rattle.certificate.specs.Outcome.{outcome_of, outcome, checked_read, check_outcome};
ghost use Rattle.certificate.specs.Forms.{certificate_text, fitted_text, first_unlike};

use crate::{CERTIFICATE_LINES, LONGEST_CERTIFICATE, Refusal, reading, verdicts, writing};
use lines::texts::{TooShort, write_fitted};
use questions::Answer;
use questions::answers::answered;
use questions::asking::refused_at;
use section::{SHEET_LINES, Sheet};

impl From<TooShort> for Refusal {
    ghost from_gives = { λ short r. r ≡ Room short.0 };

    fn from(short: TooShort) -> Refusal {
        Refusal::Room(short.0 as u64)
    }
}

// Question 12: the certificate is written if it fits the buffer.
#[tactic(auto, using(crate::proofs::OutcomeSteps::putting))]
fn put(values: [i128; CERTIFICATE_LINES], buffer: &mut [u8]) -> Result<usize, Refusal>
    requires { length (certificate_text values) ≤ longest certificate_fields }
    ensures value { result ≡ length_in (fitted_text values) buffer.old }
    ensures buffer_after { buffer.new ≡ buffer_in (fitted_text values) buffer.old }
{
    let text = writing::text(&values);
    Ok(write_fitted(&text, LONGEST_CERTIFICATE, buffer)?)
}

// The length of a sheet's certificate, written into the buffer, or the refusal.
#[tactic(auto, using(crate::proofs::OutcomeSteps::working), unfolding(crate::specs::Certificates::certificate_values))]
fn certify_sheet(q: Sheet, buffer: &mut [u8]) -> Result<usize, Refusal>
    ensures value { result ≡ length_in (outcome_of q) buffer.old }
    ensures buffer_after { buffer.new ≡ buffer_in (outcome_of q) buffer.old }
{
    let figures = verdicts::verdict_of(q)?;
    put(writing::line_values(q, figures), buffer)
}

// The same of a sheet's bytes.
#[tactic(auto, using(crate::proofs::OutcomeSteps::certifying))]
pub fn certify(sheet: &[u8], buffer: &mut [u8]) -> Result<usize, Refusal>
    ensures value { result ≡ length_in (outcome sheet.now) buffer.old }
    ensures buffer_after { buffer.new ≡ buffer_in (outcome sheet.now) buffer.old }
{
    certify_sheet(reading::read_sheet(sheet)?, buffer)
}

// The certificate of a sheet's numbers, into the buffer.
pub fn write_sheet(q: Sheet, buffer: &mut [u8]) -> Answer
    ensures value { result ≡ answer_in refusal_answer (outcome_of q) buffer.old }
    ensures buffer_after { buffer.new ≡ buffer_in (outcome_of q) buffer.old }
{
    answered(certify_sheet(q, buffer))
}

// The certificate of a sheet's plain numbers, in the order of the lines, into the buffer.
pub fn from_numbers(numbers: [u64; SHEET_LINES], buffer: &mut [u8]) -> Answer
    ensures value { result ≡ answer_in refusal_answer (outcome_of (sheet_of numbers)) buffer.old }
    ensures buffer_after { buffer.new ≡ buffer_in (outcome_of (sheet_of numbers)) buffer.old }
{
    write_sheet(Sheet::from(numbers), buffer)
}

// The certificate of a sheet, into the buffer.
pub fn write(sheet: &[u8], buffer: &mut [u8]) -> Answer
    ensures value { result ≡ answer_in refusal_answer (outcome sheet.now) buffer.old }
    ensures buffer_after { buffer.new ≡ buffer_in (outcome sheet.now) buffer.old }
{
    answered(certify(sheet, buffer))
}

// The place of the first element that differs, counted from 0.
fn first_difference<T: PartialEq>(a: &[T], b: &[T]) -> Option<usize>
    ensures value { result ≡ position_from (λ p. not (T.eq p.0 p.1)) 0 (zip a.now b.now) }
    ensures within { IfSome result (λ i. i < length a.now) }
{
    a.iter().zip(b).position(|(x, y)| x != y)
}

// Question 13: the first of the lines behind the sheet's that differs.
fn first_unlike(
    shown: &[i128; CERTIFICATE_LINES],
    worked: &[i128; CERTIFICATE_LINES],
) -> Result<(), Refusal>
    ensures { result ≡ first_unlike shown.now worked.now }
{
    let place = first_difference(&shown[SHEET_LINES..], &worked[SHEET_LINES..]);
    refused_at(place, SHEET_LINES + 1, Refusal::Figure)
}

// The first of the questions from the second on that a certificate's values do not meet.
#[tactic(auto, using(crate::proofs::OutcomeSteps::comparing), unfolding(crate::specs::Outcome::checked_read))]
fn compared(shown: &[i128; CERTIFICATE_LINES]) -> Result<(), Refusal>
    requires { Words shown.now }
    ensures { result ≡ checked_read (values shown.now) }
{
    let q = reading::sheet_shown(shown);
    let figures = verdicts::verdict_of(q)?;
    first_unlike(shown, &writing::line_values(q, figures))
}

// The length of a certificate that is the one written for its own sheet, or the refusal.
#[tactic(auto, using(crate::proofs::OutcomeSteps::verifying))]
pub fn verify(certificate: &[u8]) -> Result<usize, Refusal>
    ensures { result ≡ length_of (check_outcome certificate.now) }
{
    compared(&reading::read_certificate(certificate)?)?;
    Ok(certificate.len())
}

// Whether a certificate is the one written for its own sheet.
pub fn check(certificate: &[u8]) -> Answer
    ensures { result ≡ answer_of refusal_answer (check_outcome certificate.now) }
{
    answered(verify(certificate))
}
