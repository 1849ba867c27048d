// What a call answers, and why it refuses.
ghost use Rattle.std.specs.Prelude.{◌≡◌, Result};
ghost use Rattle.questions.specs.Answers.{answer, answered, AnswerLaws};

use crate::Answer;

// A number or 0, a line and a length.
pub fn answer(refusal: u64, line: u64, length: u64) -> Answer
    ensures { result ≡ answer refusal line length }
{
    Answer {
        refusal,
        line,
        length,
    }
}

// Why a call refuses: a crate's refusals, each with its number, its line and its length.
pub trait Reason: Drop {
    ghost use Rattle.questions.specs.declared.Answer.{Answer};

    ghost told: { Self → Answer };

    fn told(self) -> Answer
        ensures { result ≡ told self };

    ghost laws: { AnswerLaws told };
}

// What is answered where so many bytes are written, or there is a reason for none.
pub fn answered<R: Reason>(outcome: Result<usize, R>) -> Answer
    ensures { result ≡ answered R.told outcome }
{
    match outcome {
        Ok(length) => answer(0, 0, length as u64),
        Err(reason) => reason.told(),
    }
}
