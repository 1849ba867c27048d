// What is answered where there is no coefficient or no table.
ghost use Rattle.lip_table.specs.Outcome.{lip_answer, lip_laws};

use crate::LipRefusal;
use questions::Answer;
use questions::answers::{Reason, answer};

impl Reason for LipRefusal {
    ghost told = { lip_answer };

    ghost laws = { lip_laws };

    fn told(self) -> Answer {
        match self {
            LipRefusal::Ratio => answer(16, 0, 0),
            LipRefusal::Room(length) => answer(12, 0, length),
        }
    }
}
