// Numbers in a row: in decimal, one blank between, and a newline behind the last.
ghost use Rattle.std.specs.Prelude.{◌≡◌, ◌<◌};
ghost use Rattle.lines.specs.Decimal.{row_ending, row_text};
ghost use Rattle.lines.specs.Runs.{runs, rows_text};

use crate::keys::{BLANK, NEWLINE};
use crate::texts::{Behind, Byte, Text};
use crate::{decimal, texts};

// The byte behind a number of a row.
#[tactic(auto, unfolding(crate::specs::Decimal::row_ending))]
fn ending(behind: &[u64]) -> Byte
    ensures { result.0 ≡ row_ending behind.now }
{
    if behind.is_empty() {
        return Byte(NEWLINE);
    }
    Byte(BLANK)
}

// Numbers of one row.
#[derive(Clone, Copy, Debug, PartialEq, Eq)]
pub struct Row<'a>(pub &'a [u64]);

impl Text for Row<'_> {
    ghost bytes = { λ r. row_text r.0.now };

    #[tactic(auto, unfolding(crate::specs::Decimal::row_text))]
    fn length(&self) -> usize {
        let mut n = 0;
        for number in self.0 {
            n += decimal::width(*number) + 1;
        }
        n
    }

    #[tactic(auto, unfolding(crate::specs::Decimal::row_text, questions::specs::Buffers::over))]
    fn put(&self, out: &mut [u8]) -> usize {
        let mut at = 0;
        let mut left = self.0;
        while let Some((number, behind)) = left.split_first() {
            at = texts::put_behind(out, at, &Behind(*number, ending(behind)));
            left = behind;
        }
        at
    }
}

// Numbers in rows of `width`; the last row may be shorter.
#[derive(Clone, Copy, Debug, PartialEq, Eq)]
pub struct Rows<'a> {
    pub numbers: &'a [u64],
    pub width: usize,
    ghost some: { 0 < width },
}

impl Text for Rows<'_> {
    ghost bytes = { λ r. rows_text (runs r.width r.numbers.now) };

    #[tactic(auto, using(crate::proofs::RunLaws::rows_length))]
    fn length(&self) -> usize {
        Row(self.numbers).length()
    }

    fn put(&self, out: &mut [u8]) -> usize {
        let mut at = 0;
        for row in self.numbers.chunks(self.width) {
            at = texts::put_behind(out, at, &Row(row));
        }
        at
    }
}
