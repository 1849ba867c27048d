// What one sheet of a catalogue gives.
ghost use Rattle.std.specs.Prelude.{◌≡◌, ◌==◌};
ghost use Rattle.catalogue.specs.Catalogues.{certified};
ghost use Rattle.catalogue.specs.Forms.{row_of, number_answered};

use certificate::{Refusal, reading, verdicts};
use questions::answers::Reason;

// The line of an accepted sheet in a report: its place, and the figures that its certificate shows.
#[derive(Clone, Copy, Debug, Default, PartialEq, Eq)]
pub struct Row {
    pub place: u64,
    pub area: u64,
    pub axial: u64,
}

// The line of the sheet at this place, or why writing its certificate refuses it, room given.
#[tactic(auto, using(crate::proofs::EntryLaws::judging))]
pub fn judge(sheet: &[u8], place: u64) -> Result<Row, Refusal>
    ensures { result ≡ row_of place (certified sheet.now) }
{
    let q = reading::read_sheet(sheet)?;
    let figures = verdicts::verdict_of(q)?;
    Ok(Row {
        place,
        area: figures.area,
        axial: figures.axial,
    })
}

// Whether the sheet fails the first question.
pub fn is_misspelt(judged: Result<Row, Refusal>) -> bool
    ensures { result ≡ number_answered judged == 1 }
{
    matches!(judged, Err(Refusal::Spelling(_)))
}

// The number that is answered: 0 where the sheet is accepted.
pub fn number(judged: Result<Row, Refusal>) -> u64
    ensures { result ≡ number_answered judged }
{
    match judged {
        Ok(_) => 0,
        Err(reason) => reason.told().refusal,
    }
}
