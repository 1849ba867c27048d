// What is answered where there is no report.
ghost use Rattle.std.specs.Prelude.{◌≡◌};
ghost use Rattle.catalogue.specs.declared.ReportRefusal.TheVariants.{Room};
ghost use Rattle.catalogue.specs.Refusals.{report_answer, report_laws};

use crate::ReportRefusal;
use lines::texts::TooShort;
use questions::Answer;
use questions::answers::{Reason, answer};

impl Reason for ReportRefusal {
    ghost told = { report_answer };

    ghost laws = { report_laws };

    fn told(self) -> Answer {
        match self {
            ReportRefusal::SheetCount => answer(14, 0, 0),
            ReportRefusal::Misspelt(place) => answer(15, place, 0),
            ReportRefusal::Room(length) => answer(12, 0, length),
        }
    }
}

impl From<TooShort> for ReportRefusal {
    ghost from_gives = { λ short r. r ≡ Room short.0 };

    fn from(short: TooShort) -> ReportRefusal {
        ReportRefusal::Room(short.0 as u64)
    }
}
