// Reading a sheet, and the lines of a certificate: the first question. (docs/WORKING.md, 15.)
ghost use Rattle.std.specs.Prelude.{◌≡◌, ◌≤◌, ◌<◌, ◌^◌, nat_abs, length, take, IfOk};
ghost use Rattle.lines.specs.Reading.{read_lines};
ghost use Rattle.lines.specs.Texts.{Words};
ghost use Rattle.section.specs.Sheets.{sheet_lines};
ghost use Rattle.certificate.specs.declared.Refusal.TheVariants.{Spelling};
ghost use Rattle.certificate.specs.Keys.{certificate_lines, certificate_fields};
ghost use Rattle.lines.specs.Forms.{padded};
ghost use Rattle.certificate.specs.Certificates.{sheet_shown, sheet_in, certificate_in};

use crate::keys::keys;
use crate::{CERTIFICATE_LINES, Refusal};
use lines::reading;
use lines::reading::BadLine;
use section::{SHEET_LINES, Sheet};

impl From<BadLine> for Refusal {
    ghost from_gives = { λ bad r. r ≡ Spelling bad.0 };

    fn from(bad: BadLine) -> Refusal {
        Refusal::Spelling(bad.0 as u64)
    }
}

// Reads the first `count` lines of a certificate, behind which nothing may stand: their values, and
// zeros behind these.
#[tactic(auto, using(crate::proofs::Arrays::first_keys))]
pub fn read_lines(s: &[u8], count: usize) -> Result<[i128; CERTIFICATE_LINES], BadLine>
    requires { count ≤ certificate_lines }
    ensures { result ≡ padded certificate_lines (read_lines (take count certificate_fields) s.now) }
{
    reading::first_lines(s, &keys()[..count])
}

// The values of a certificate's lines, or that one is bad.
#[tactic(auto, using(crate::proofs::OutcomeSteps::reading_certificates))]
pub fn read_certificate(s: &[u8]) -> Result<[i128; CERTIFICATE_LINES], Refusal>
    ensures value { result ≡ certificate_in s.now }
    ensures words { IfOk result Words }
{
    Ok(reading::table(s, keys())?)
}

// The number that a line shows.
fn number(value: i128) -> u64
    requires { nat_abs value < 2 ^ 64 }
    ensures { result ≡ nat_abs value }
{
    value.unsigned_abs() as u64
}

// The sheet that a certificate's first lines, or a sheet's, show.
pub fn sheet_shown(values: &[i128]) -> Sheet
    requires all_lines { sheet_lines ≤ length values.now }
    requires words { Words values.now }
    ensures { result ≡ sheet_shown values.now }
{
    let mut first = [0; SHEET_LINES];
    first.copy_from_slice(&values[..SHEET_LINES]);
    Sheet::from(first.map(number))
}

// The sheet that some bytes are, or that one of their lines is bad.
#[tactic(auto, using(crate::proofs::OutcomeSteps::reading_sheets))]
pub fn read_sheet(s: &[u8]) -> Result<Sheet, Refusal>
    ensures { result ≡ sheet_in s.now }
{
    let values = reading::table::<SHEET_LINES>(s, &keys()[..SHEET_LINES])?;
    Ok(sheet_shown(&values))
}
