// Cases of pairs.
ghost use Rattle.std.specs.Prelude.{◌<◌};

use crate::outcome::Outcome;
use pair::Pair;

fn ratio(a: u64, b: u64, s: u64) -> Option<Outcome> {
    pair_checked::ratio_fits(a, b, s).then(|| Outcome::Ends(Pair::ratio(a, b, s)))
}

fn plus(p: Pair, q: Pair) -> Option<Outcome> {
    pair_checked::plus_fits(p, q).then(|| Outcome::Ends(p.plus(q)))
}

fn minus(p: Pair, q: Pair) -> Option<Outcome> {
    pair_checked::minus_fits(p, q).then(|| Outcome::Ends(p.minus(q)))
}

fn times(p: Pair, q: Pair, s: u64) -> Option<Outcome> {
    pair_checked::times_fits(p, q, s).then(|| Outcome::Ends(p.times(q, s)))
}

fn over(p: Pair, q: Pair, s: u64) -> Option<Outcome> {
    pair_checked::over_fits(p, q, s).then(|| Outcome::Ends(p.over(q, s)))
}

fn times_ratio(p: Pair, a: u64, b: u64, s: u64) -> Option<Outcome> {
    pair_checked::times_ratio_fits(p, a, b, s).then(|| Outcome::Ends(p.times_ratio(a, b, s)))
}

fn over_ratio(p: Pair, a: u64, b: u64, s: u64) -> Option<Outcome> {
    pair_checked::over_ratio_fits(p, a, b, s).then(|| Outcome::Ends(p.over_ratio(a, b, s)))
}

fn root(p: Pair, s: u64) -> Option<Outcome> {
    pair_checked::root_fits(p, s).then(|| Outcome::Ends(p.root(s)))
}

fn roots(p: Pair, q: Pair, s: u64) -> Option<Outcome> {
    let fits = pair_checked::root_fits(p, s) && pair_checked::root_fits(q, s);
    fits.then(|| Outcome::TwoEnds(p.root(s), q.root(s)))
}

fn cube_root(p: Pair, s: u64) -> Option<Outcome> {
    pair_checked::cube_root_fits(p, s).then(|| Outcome::Ends(p.cube_root(s)))
}

// The pair whose ends are the numbers from a word on.
pub fn pair(line: &[u8], blanks: usize) -> Pair
    requires { blanks < 8 }
{
    Pair {
        lo: cases::number(line, blanks),
        hi: cases::number(line, blanks + 1),
    }
}

// The operation that the line's letter names, and what it gives, where it applies. Only its own operands are read.
pub fn given(line: &[u8]) -> Option<(&'static str, Option<Outcome>)> {
    let n = |blanks| cases::number(line, blanks);
    let p = || pair(line, 1);
    let q = || pair(line, 3);
    match cases::letter(line)? {
        b'e' => Some(("exact", Some(Outcome::Ends(Pair::exact(n(1)))))),
        b'v' => Some(("ratio", ratio(n(1), n(2), n(3)))),
        b'p' => Some(("plus", plus(p(), q()))),
        b'm' => Some(("minus", minus(p(), q()))),
        b't' => Some(("times", times(p(), q(), n(5)))),
        b'o' => Some(("over", over(p(), q(), n(5)))),
        b'x' => Some(("times_ratio", times_ratio(p(), n(3), n(4), n(5)))),
        b'y' => Some(("over_ratio", over_ratio(p(), n(3), n(4), n(5)))),
        b'r' => Some(("root", root(p(), n(3)))),
        b'R' => Some(("roots", roots(p(), q(), n(5)))),
        b'c' => Some(("cube_root", cube_root(p(), n(3)))),
        b'i' => Some(("smaller", Some(Outcome::Ends(p().smaller(q()))))),
        _ => None,
    }
}
