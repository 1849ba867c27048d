// The lookup of a coefficient in the table. (docs/WORKING.md, 15.2.)
ghost use Rattle.std.specs.Prelude.{◌≡◌};
ghost use Rattle.lip_table.specs.Outcome.{told_with, found_ends, coefficient_at};

use crate::entries::Entry;
use crate::{Coefficient, LEAST_RATIO, LipRefusal, MOST_RATIO, STEP, entries};
use questions::Answer;
use questions::answers::{Reason, answer};
use questions::asking::ask;

// An answer with the two ends.
fn told_with(answer: Answer, lower: u64, upper: u64) -> Coefficient
    ensures { result ≡ told_with answer lower upper }
{
    Coefficient {
        refusal: answer.refusal,
        line: answer.line,
        length: answer.length,
        lower,
        upper,
    }
}

// For a ratio in millionths: the lower end of the entry at or below it, the upper end of the entry at
// or above it. Question 16: there are none for a ratio outside the table.
#[tactic(auto, unfolding(questions::specs::Asking::first_of))]
fn ends(ratio: u64) -> Result<(u64, u64), LipRefusal>
    ensures { result ≡ found_ends ratio }
{
    ask(
        (LEAST_RATIO..=MOST_RATIO).contains(&ratio),
        LipRefusal::Ratio,
    )?;
    let past = ratio - LEAST_RATIO;
    let below = past / STEP;
    let above = past.div_ceil(STEP);
    let table = entries::table();
    let Entry(lower, _) = table[below as usize];
    let Entry(_, upper) = table[above as usize];
    Ok((lower, upper))
}

// The same as an answer, whose ends are 0 where the ratio is refused.
#[tactic(auto, using(crate::proofs::Told::told_of_ends, crate::proofs::Told::told_of_refusal))]
pub fn coefficient(ratio: u64) -> Coefficient
    ensures { result ≡ coefficient_at ratio }
{
    match ends(ratio) {
        Ok((lower, upper)) => told_with(answer(0, 0, 0), lower, upper),
        Err(reason) => told_with(reason.told(), 0, 0),
    }
}
