// What the programs print for the bytes that they read: specs/Printed.
ghost use Rattle.std.specs.Prelude.{◌≡◌, ◌++◌, ◌+◌, ◌≤◌, ℕ, List, length, pos};
ghost use Rattle.questions.specs.Buffers.{over};
ghost use Rattle.questions.specs.Outcomes.{Outcome, length_of, buffer_after};
ghost use Rattle.lines.specs.declared.keys.Kind.TheVariants.{Number};
ghost use Rattle.lines.specs.Fields.{field};
ghost use Rattle.lines.specs.Texts.{line_text};
ghost use Rattle.report.specs.Printed.{number_line, refusal_lines, outcome_prints, certify_prints, verify_prints};

use certificate::{LONGEST_CERTIFICATE, certificates};
use lines::keys::{Key, Kind};
use lines::texts::{Behind, Text};
use lines::writing::Line;
use questions::Answer;
use questions::answers::Reason;

// The most bytes that the two lines of a refusal take, a number having at most 20 digits.
pub const LONGEST_REFUSAL: usize = 8 + 20 + 1 + 5 + 20 + 1;

const REFUSED: Key<'static> = Key {
    text: b"refused=",
    kind: Kind::Number,
};

const LINE: Key<'static> = Key {
    text: b"line=",
    kind: Kind::Number,
};

const PASSED: Key<'static> = Key {
    text: b"passed=",
    kind: Kind::Number,
};

// A line key=number.
#[tactic(auto, using(lines::proofs::Laws::number_line_lem))]
fn number_line(key: &Key<'static>, n: u64) -> Line<'static>
    requires { key.now.kind ≡ Number }
    ensures key { result.key ≡ key.now }
    ensures value { result.value ≡ pos n }
    ensures most { length (line_text (field result.key) result.value) ≤ length key.now.text.now + 21 }
{
    Line {
        key: *key,
        value: i128::from(n),
    }
}

// The two lines of a refusal.
#[tactic(auto, unfolding(crate::specs::Printed::refusal_lines, crate::specs::Printed::number_line))]
fn refusal(answer: Answer) -> Behind<Line<'static>, Line<'static>>
    ensures text { line_text (field result.0.key) result.0.value ++ line_text (field result.1.key) result.1.value ≡ refusal_lines answer }
    ensures most { length (refusal_lines answer) ≤ 55 }
{
    Behind(
        number_line(&REFUSED, answer.refusal),
        number_line(&LINE, answer.line),
    )
}

// The line of a certificate that passed, with its length.
#[tactic(auto, unfolding(crate::specs::Printed::number_line))]
fn passed(size: usize) -> Line<'static>
    ensures text { line_text (field result.key) result.value ≡ number_line "passed=" size }
    ensures most { length (number_line "passed=" size) ≤ 28 }
{
    number_line(&PASSED, size as u64)
}

// Writes the two lines of a refusal at the start of out, and answers their length.
pub fn put_refusal(out: &mut [u8], answer: Answer) -> usize
    requires { 55 ≤ length out.old }
    ensures value { result ≡ length (refusal_lines answer) }
    ensures out_after { out.new ≡ over (refusal_lines answer) out.old }
{
    refusal(answer).put(out)
}

// What is printed of a call that has written its text at the start of out, or refuses: that text, or the two lines of
// the refusal. Answers its length.
pub fn outcome_prints<R: Reason>(answered: Result<usize, R>, out: &mut [u8]) -> usize
    requires { 55 ≤ length out.old }
    ensures value { (o : Outcome R) → answered ≡ length_of o → result ≡ length (outcome_prints R.told o) }
    ensures out_after { (o : Outcome R) → answered ≡ length_of o → (b : List ℕ) → out.old ≡ buffer_after o b
        → out.new ≡ over (outcome_prints R.told o) b }
{
    match answered {
        Ok(length) => length,
        Err(reason) => put_refusal(out, reason.told()),
    }
}

// Writes what `certify` prints for a sheet at the start of out, and answers its length. The last clause is what lending
// out again, as a slice, needs; with the others it says that the length lies within the room.
pub fn certify_prints(sheet: &[u8], out: &mut [u8; LONGEST_CERTIFICATE]) -> usize
    ensures value { result ≡ length (certify_prints sheet.now) }
    ensures out_after { out.new ≡ over (certify_prints sheet.now) out.old }
    ensures room { 289 ≡ length out.new }
{
    outcome_prints(certificates::certify(sheet, out), out)
}

// Writes what `verify` prints for a certificate at the start of out, and answers its length. The last clause as above.
pub fn verify_prints(certificate: &[u8], out: &mut [u8; LONGEST_REFUSAL]) -> usize
    ensures value { result ≡ length (verify_prints certificate.now) }
    ensures out_after { out.new ≡ over (verify_prints certificate.now) out.old }
    ensures room { 55 ≡ length out.new }
{
    match certificates::verify(certificate) {
        Ok(length) => passed(length).put(out),
        Err(reason) => put_refusal(out, reason.told()),
    }
}
