// The table as text. (docs/WORKING.md, 15.2.)
ghost use Rattle.std.specs.Prelude.{◌≡◌};
ghost use Rattle.questions.specs.Outcomes.{answer_in, length_in, buffer_in};
ghost use Rattle.lip_table.specs.declared.LipRefusal.TheVariants.{Room};
ghost use Rattle.lip_table.specs.Outcome.{lip_answer, table_outcome};

use crate::entries::Entry;
use crate::{LipRefusal, TABLE_LENGTH, entries};
use lines::texts;
use lines::texts::TooShort;
use questions::Answer;
use questions::answers::answered;

impl From<TooShort> for LipRefusal {
    ghost from_gives = { λ short r. r ≡ Room short.0 };

    fn from(short: TooShort) -> LipRefusal {
        LipRefusal::Room(short.0 as u64)
    }
}

// Question 12: the table is written if it fits the buffer; answers its length.
fn put(buffer: &mut [u8]) -> Result<usize, LipRefusal>
    ensures value { result ≡ length_in table_outcome buffer.old }
    ensures buffer_after { buffer.new ≡ buffer_in table_outcome buffer.old }
{
    // Of a buffer that is too short no entry is looked at: the length is known.
    if buffer.len() < TABLE_LENGTH {
        return Err(LipRefusal::Room(TABLE_LENGTH as u64));
    }
    let table: &[Entry] = entries::table();
    Ok(texts::write_fitted(&table, TABLE_LENGTH, buffer)?)
}

// The table, into the buffer.
pub fn write(buffer: &mut [u8]) -> Answer
    ensures value { result ≡ answer_in lip_answer table_outcome buffer.old }
    ensures buffer_after { buffer.new ≡ buffer_in table_outcome buffer.old }
{
    answered(put(buffer))
}
