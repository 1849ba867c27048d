// How many sheets some bytes are, counted without reading any of them.
ghost use Rattle.std.specs.Prelude.{◌≡◌, [], ◌+◌, min};
ghost use Rattle.catalogue.specs.Forms.{newlines_enough, line_count, counted_on, sheets_counted};

use crate::MOST_LINES;
use lines::splitting;
use section::SHEET_LINES;

// The lines of some bytes: newlines, counted up to one more than a full catalogue has, and whether
// bytes stand behind the last.
#[derive(Clone, Copy, Debug, PartialEq, Eq)]
pub struct LineCount {
    pub newlines: usize,
    pub unended: bool,
}

// n newlines and so many more.
fn newlines_with(n: usize, more: usize) -> usize
    ensures { result ≡ min (n + more) newlines_enough }
{
    n.saturating_add(more).min(MOST_LINES + 1)
}

impl LineCount {
    // Of no bytes.
    #[tactic(auto, using(crate::proofs::LineCounts::none_counted))]
    pub fn none() -> LineCount
        ensures { result ≡ line_count [] }
    {
        LineCount {
            newlines: 0,
            unended: false,
        }
    }

    // The lines of the bytes counted so far and of this part behind them (`counted_behind` in
    // proofs/LineCounts).
    #[tactic(auto, using(crate::proofs::LineCounts::counted_empty, crate::proofs::LineCounts::counted_some))]
    pub fn count_on(self, part: &[u8]) -> LineCount
        ensures { result ≡ counted_on self part.now }
    {
        LineCount {
            newlines: newlines_with(self.newlines, splitting::newline_count(part)),
            unended: if part.is_empty() {
                self.unended
            } else {
                splitting::is_unended(part)
            },
        }
    }

    // The sheets that these lines make, up to one more than a catalogue may have.
    #[tactic(auto, using(crate::proofs::LineCounts::byte_is), unfolding(crate::specs::Forms::sheets_counted))]
    pub fn sheet_count(self) -> usize
        ensures { result ≡ sheets_counted self }
    {
        let n = newlines_with(self.newlines, 0) + usize::from(self.unended);
        n.div_ceil(SHEET_LINES)
    }
}
