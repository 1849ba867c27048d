// The values of a certificate's lines, and their text. (docs/WORKING.md, 14.)
ghost use Rattle.std.specs.Prelude.{◌≡◌, map};
ghost use Rattle.section.specs.Figures.{Printed, own_figures};
ghost use Rattle.section.specs.Forms.{figures_of};
ghost use Rattle.lines.specs.Fields.{field};
ghost use Rattle.lines.specs.Texts.{lines_text};
ghost use Rattle.certificate.specs.Certificates.{sheet_values, figure_values, certificate_values};
ghost use Rattle.certificate.specs.Forms.{certificate_text};

use crate::keys::keys;
use crate::{CERTIFICATE_LINES, FIGURE_LINES};
use lines::writing::Lines;
use section::{Figures, SHEET_LINES, Sheet};

// The values of a sheet's lines.
fn sheet_values(q: Sheet) -> [i128; SHEET_LINES]
    ensures { result ≡ sheet_values q }
{
    <[u64; SHEET_LINES]>::from(q).map(i128::from)
}

// The values of the lines behind the sheet's.
fn figure_values(f: Figures) -> [i128; FIGURE_LINES]
    ensures { (p : Printed) → f ≡ figures_of p → result ≡ figure_values p }
{
    [
        i128::from(f.area),
        i128::from(f.axial),
        i128::from(f.chi1),
        i128::from(f.chi2),
        f.shiftlo,
        f.shifthi,
    ]
}

// The values of a certificate's lines.
pub fn line_values(q: Sheet, f: Figures) -> [i128; CERTIFICATE_LINES]
    requires { f ≡ figures_of (own_figures q) }
    ensures { result ≡ certificate_values q }
{
    let mut values = [0; CERTIFICATE_LINES];
    values[..SHEET_LINES].copy_from_slice(&sheet_values(q));
    values[SHEET_LINES..].copy_from_slice(&figure_values(f));
    values
}

// The text of a certificate with these values.
pub fn text(values: &[i128; CERTIFICATE_LINES]) -> Lines<'_>
    ensures { lines_text (map field result.keys.now) result.values.now ≡ certificate_text values.now }
{
    Lines {
        keys: keys(),
        values,
    }
}
