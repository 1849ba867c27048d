// The questions on a sheet's numbers, in the paper's order: the first "no" decides.
// (docs/WORKING.md, 15.)
ghost use Rattle.std.specs.Prelude.{◌≡◌, ◌≤◌, ◌<◌, map, not, IfSome};
ghost use Rattle.std.specs.List.{position_from, zip};
ghost use Rattle.questions.specs.Claims.{test};
ghost use Rattle.questions.specs.Asking.{first_of, first_in};
ghost use Rattle.section.specs.Sound.{Question2};
ghost use Rattle.section.specs.Sheets.{sheet_lines, ranges, lip};
ghost use Rattle.section.specs.Figures.{own_figures};
ghost use Rattle.certificate.specs.Questions.{question2, on_lengths, on_lips, question11, spanned};
ghost use Rattle.certificate.specs.Questions.{first_refusal, judged, verdict, verdict_of};

use crate::{Flange, Refusal};
use questions::asking::{ask, refused_at};
use section::{Figures, SHEET_LINES, Sheet, SoundSheet};

// What a value may be: from the first number to the second, both included, or one of the two.
#[derive(Clone, Copy, Debug, PartialEq, Eq)]
enum Span {
    Upto(u64, u64),
    OneOf(u64, u64),
}

impl Span {
    fn admits(self, v: u64) -> bool
        ensures { result ≡ test (spanned self v) }
    {
        match self {
            Span::Upto(least, most) => (least..=most).contains(&v),
            Span::OneOf(a, b) => v == a || v == b,
        }
    }
}

// The ranges, in the order of the lines.
const RANGES: [Span; SHEET_LINES] = [
    Span::Upto(0, 1),
    Span::Upto(4000, 50_000),
    Span::Upto(2000, 20_000),
    Span::Upto(2000, 20_000),
    Span::Upto(500, 12_000),
    Span::Upto(0, 3000),
    Span::Upto(50, 600),
    Span::Upto(45, 600),
    Span::Upto(200, 700),
    Span::Upto(1000, 1500),
    Span::Upto(0, 8),
    Span::Upto(0, 1000),
    Span::OneOf(1, 10),
];

// The place of the first value that its span does not admit, counted from 0.
fn first_outside(spans: &[Span; SHEET_LINES], values: &[u64; SHEET_LINES]) -> Option<usize>
    ensures value { result ≡ position_from (λ p. not (test (spanned p.0 p.1))) 0 (zip spans.now values.now) }
    ensures within { IfSome result (λ i. i < sheet_lines) }
{
    spans
        .iter()
        .zip(values)
        .position(|(span, v)| !span.admits(*v))
}

// Question 2: the first line whose value is out of its range.
fn in_range(spans: &[Span; SHEET_LINES], q: Sheet) -> Result<(), Refusal>
    requires { map spanned spans.now ≡ ranges }
    ensures { result ≡ first_of (question2 q) }
{
    let place = first_outside(spans, &<[u64; SHEET_LINES]>::from(q));
    refused_at(place, 1, Refusal::Range)
}

// Questions 3 to 6: t <= tnom; b <= 60t, flange 1 then 2; c <= 50t; h <= 500t.
#[tactic(auto, unfolding(questions::specs::Asking::first_of, questions::specs::Asking::first_in))]
fn lengths_suit(q: Sheet) -> Result<(), Refusal>
    requires { Question2 q }
    ensures { result ≡ first_in (on_lengths q) }
{
    let t = q.t.0;
    ask(t <= q.tnom.0, Refusal::Thickness)?;
    ask(q.b1 <= 60 * t, Refusal::FlangeWidth(Flange::One.line()))?;
    ask(q.b2 <= 60 * t, Refusal::FlangeWidth(Flange::Two.line()))?;
    ask(q.c <= 50 * t, Refusal::LipLength)?;
    ask(q.h <= 500 * t, Refusal::Depth)
}

// Whether the lip suits a flange: b <= 5c and 5c <= 3b.
fn lip_suits(b: u64, c: u64) -> bool
    requires { (b ≤ 20000) × (c ≤ 12000) }
    ensures { result ≡ test (lip b c) }
{
    b <= 5 * c && 5 * c <= 3 * b
}

// Questions 7 to 10: the lip beside flange 1, then 2; r <= 5t and 10r <= bp1 and 10r <= bp2; 5cp <= 3bp,
// flange 1 then 2, both sides doubled, since cp may have half hundredths; form Z, or 2c <= h.
#[tactic(auto, unfolding(questions::specs::Asking::first_of, questions::specs::Asking::first_in))]
fn lips_suit(q: Sheet) -> Result<(), Refusal>
    requires { Question2 q }
    ensures { result ≡ first_in (on_lips q) }
{
    let tnom = q.tnom.0;
    let bp1 = q.b1 - tnom;
    let bp2 = q.b2 - tnom;
    let r = 10 * q.r;
    let lip = 5 * (2 * q.c - tnom);
    ask(lip_suits(q.b1, q.c), Refusal::LipRatio(Flange::One.line()))?;
    ask(lip_suits(q.b2, q.c), Refusal::LipRatio(Flange::Two.line()))?;
    ask(q.r <= 5 * q.t.0 && r <= bp1 && r <= bp2, Refusal::Radius)?;
    ask(lip <= 6 * bp1, Refusal::MidLineRatio(Flange::One.line()))?;
    ask(lip <= 6 * bp2, Refusal::MidLineRatio(Flange::Two.line()))?;
    ask(q.form == 1 || 2 * q.c <= q.h, Refusal::Form)
}

// The first of questions 2 to 10 that a sheet's numbers do not meet.
#[tactic(auto, using(crate::proofs::Steps::part_by_part))]
pub fn first_refusal(q: Sheet) -> Result<(), Refusal>
    ensures { result ≡ first_refusal q }
{
    in_range(&RANGES, q)?;
    lengths_suit(q)?;
    lips_suit(q)
}

// Question 11: whether the area's upper end is at most area + allow. If so, the figures.
#[tactic(auto, using(crate::proofs::Steps::eleventh_met))]
fn allowance(sound: SoundSheet) -> Result<Figures, Refusal>
    ensures { let q = sound.sheet in result ≡ verdict_of (judged (first_of (question11 q)) (own_figures q)) }
{
    let worked = sound.work(sound.sheet.scale());
    ask(worked.within_allowance(), Refusal::Allowance)?;
    Ok(worked.figures())
}

// The first of questions 2 to 11 that a sheet's numbers do not meet, or their figures.
#[tactic(auto, using(crate::proofs::Steps::before_the_eleventh))]
pub fn verdict_of(q: Sheet) -> Result<Figures, Refusal>
    ensures { result ≡ verdict_of (verdict q) }
{
    first_refusal(q)?;
    allowance(SoundSheet { sheet: q })
}
