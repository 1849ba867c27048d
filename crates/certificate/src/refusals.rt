// What is answered for a refusal. (docs/WORKING.md, 15.)
ghost use Rattle.std.specs.Prelude.{◌≡◌};
ghost use Rattle.certificate.specs.Refusals.{flange_line, refusal_answer, refusal_laws};

use crate::{Flange, Refusal};
use questions::Answer;
use questions::answers::{Reason, answer};

impl Flange {
    // The line of its width.
    pub fn line(self) -> u64
        ensures { result ≡ flange_line self }
    {
        match self {
            Flange::One => 3,
            Flange::Two => 4,
        }
    }
}

impl Reason for Refusal {
    ghost told = { refusal_answer };

    ghost laws = { refusal_laws };

    fn told(self) -> Answer {
        match self {
            Refusal::Spelling(line) => answer(1, line, 0),
            Refusal::Range(line) => answer(2, line, 0),
            Refusal::Thickness => answer(3, 8, 0),
            Refusal::FlangeWidth(line) => answer(4, line, 0),
            Refusal::LipLength => answer(5, 5, 0),
            Refusal::Depth => answer(6, 2, 0),
            Refusal::LipRatio(line) => answer(7, line, 0),
            Refusal::Radius => answer(8, 6, 0),
            Refusal::MidLineRatio(line) => answer(9, line, 0),
            Refusal::Form => answer(10, 5, 0),
            Refusal::Allowance => answer(11, 12, 0),
            Refusal::Room(length) => answer(12, 0, length),
            Refusal::Figure(line) => answer(13, line, 0),
        }
    }
}

// The number, the line and the length of a refusal.
pub fn refusal_answer(r: Refusal) -> Answer
    ensures { result ≡ refusal_answer r }
{
    r.told()
}
