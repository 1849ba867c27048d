// Cases of integers and of signed pairs.
ghost use Rattle.std.specs.Prelude.{◌<◌};

use crate::outcome::Outcome;
use crate::pairs::pair;
use pair::Pair;
use pair::signed::Signed;

fn ends(a: Signed) -> Outcome {
    Outcome::SignedEnds(a.lo, a.hi)
}

#[tactic(auto, using(crate::proofs::Tested::sums))]
fn integer_plus(x: i128, y: i128) -> Option<Outcome> {
    pair_checked::sizes_fit(x, y).then(|| Outcome::Integer(x + y))
}

fn plus(a: Signed, b: Signed) -> Option<Outcome> {
    pair_checked::signed_plus_fits(a, b).then(|| ends(a.plus(b)))
}

fn minus(a: Signed, b: Signed) -> Option<Outcome> {
    pair_checked::signed_plus_fits(a, b).then(|| ends(a.minus(b)))
}

fn times(a: Signed, p: Pair, s: u64) -> Option<Outcome> {
    pair_checked::signed_times_pair_fits(a, p, s).then(|| ends(a.times(p, s)))
}

fn times_signed(a: Signed, b: Signed, s: u64) -> Option<Outcome> {
    pair_checked::signed_times_fits(a, b, s).then(|| ends(a.times_signed(b, s)))
}

fn over(a: Signed, q: Pair, s: u64) -> Option<Outcome> {
    pair_checked::signed_over_fits(a, q, s).then(|| ends(a.over(q, s)))
}

fn coarser(a: Signed, k: u64) -> Option<Outcome> {
    (0 < k).then(|| ends(a.coarser(k)))
}

// The signed pair whose ends are the numbers from a word on.
fn signed(line: &[u8], blanks: usize) -> Signed
    requires { blanks < 8 }
{
    Signed {
        lo: cases::integer(line, blanks),
        hi: cases::integer(line, blanks + 1),
    }
}

// The operation that the line's letter names, and what it gives, where it applies. Only its own operands are read.
pub fn given(line: &[u8]) -> Option<(&'static str, Option<Outcome>)> {
    let x = || cases::integer(line, 1);
    let y = || cases::integer(line, 2);
    let a = || signed(line, 1);
    let b = || signed(line, 3);
    let p = || pair(line, 1);
    let q = || pair(line, 3);
    let s = || cases::number(line, 5);
    match cases::letter(line)? {
        b'F' => Some(("of", Some(ends(Signed::from(p()))))),
        b'B' => Some(("between", Some(ends(Signed::between(p(), q()))))),
        b'A' => Some(("integer_plus", integer_plus(x(), y()))),
        b'L' => Some(("at_most", Some(Outcome::Whole((x() <= y()) as u64)))),
        b'I' => Some(("least", Some(Outcome::Integer(x().min(y()))))),
        b'G' => Some(("greatest", Some(Outcome::Integer(x().max(y()))))),
        b'P' => Some(("signed_plus", plus(a(), b()))),
        b'M' => Some(("signed_minus", minus(a(), b()))),
        b'T' => Some(("signed_times", times(a(), q(), s()))),
        b'X' => Some(("times_signed", times_signed(a(), b(), s()))),
        b'O' => Some(("signed_over", over(a(), q(), s()))),
        b'C' => Some(("coarser", coarser(a(), cases::number(line, 3)))),
        _ => None,
    }
}
