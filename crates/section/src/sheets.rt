// A sheet of its values in the order of the lines, and its values. (docs/WORKING.md, 14.)
ghost use Rattle.std.specs.Prelude.{◌≡◌};
ghost use Rattle.section.specs.Sheets.{sheet_of, values_of, fineness};
ghost use Rattle.section.specs.Sound.{Question2};

use crate::{Core, Nominal, SHEET_LINES, Scale, Sheet};

impl From<[u64; SHEET_LINES]> for Sheet {
    ghost from_gives = { λ values q. q ≡ sheet_of values };

    #[tactic(auto, unfolding(crate::specs::Sheets::sheet_of))]
    fn from(values: [u64; SHEET_LINES]) -> Self {
        Sheet {
            form: values[0],
            h: values[1],
            b1: values[2],
            b2: values[3],
            c: values[4],
            r: values[5],
            tnom: Nominal(values[6]),
            t: Core(values[7]),
            fyb: values[8],
            gm0: values[9],
            rounds: values[10],
            allow: values[11],
            fine: values[12],
        }
    }
}

impl From<Sheet> for [u64; SHEET_LINES] {
    ghost from_gives = { λ q values. values ≡ values_of q };

    #[tactic(auto, unfolding(crate::specs::Sheets::values_of))]
    fn from(q: Sheet) -> Self {
        [
            q.form, q.h, q.b1, q.b2, q.c, q.r, q.tnom.0, q.t.0, q.fyb, q.gm0, q.rounds, q.allow,
            q.fine,
        ]
    }
}

impl Sheet {
    // The scale of its own working. (W-204.) Both values are written out, so that the compiler knows that
    // there are no others.
    #[tactic(auto, unfolding(crate::specs::Sheets::fineness))]
    pub fn scale(self) -> Scale
        requires { Question2 self }
        ensures { result.fineness ≡ fineness self }
    {
        let fineness = if self.fine == 1 { 1 } else { 10 };
        Scale { fineness }
    }
}
