// Whether an operation of crate pair applies to its operands, tested as the program runs: each test
// is the one that the operation's contract asks for.
#![tactic(auto)]

ghost use Rattle.std.specs.Prelude.{◌≡◌, ◌&&◌, ◌+◌, ◌*◌, ◌/◌, ◌%◌, ◌<◌, ltb, unsigned_abs};
ghost use Rattle.pair.specs.Rounding.{ceil_div};
ghost use Rattle.pair.specs.SignedPairs.{signed, reach};
ghost use Rattle.pair.specs.Fits.{word, ratio_fits, exact_ratio, plus_fits, minus_fits, times_fits, over_fits, times_ratio_fits, over_ratio_fits};
ghost use Rattle.pair.specs.Fits.{root_fits, cube_root_fits, signed_ordered, signed_plus_fits, signed_times_fits, signed_over_fits};

use pair::signed::Signed;
use pair::{Pair, wide};

#[tactic(auto, using(crate::proofs::Deciding::sum_test))]
fn sum_fits(a: u64, b: u64) -> bool
    ensures { result ≡ word (a + b) }
{
    a <= u64::MAX - b
}

// a * b / d rounded down: below 2^64 just where the upper word of a * b is below d.
#[tactic(auto, using(crate::proofs::Deciding::floor_test))]
pub fn floor_fits(a: u64, b: u64, d: u64) -> bool
    ensures { result ≡ (ltb 0 d && word (a * b / d)) }
{
    wide::high(a, b) < d
}

// a * b / d rounded up.
#[tactic(auto, using(crate::proofs::Deciding::ceil_tests))]
pub fn ceil_fits(a: u64, b: u64, d: u64) -> bool
    ensures { result ≡ (ltb 0 d && word (ceil_div (a * b) d)) }
{
    if !floor_fits(a, b, d) {
        return false;
    }
    let (quotient, rest) = wide::product_by(a, b, d);
    rest == 0 || quotient < u64::MAX
}

#[tactic(auto, unfolding(pair::specs::Fits::plus_fits, pair::specs::Fits::words, pair::specs::Pairs::plus))]
pub fn plus_fits(p: Pair, q: Pair) -> bool
    ensures { result ≡ plus_fits p q }
{
    sum_fits(p.lo, q.lo) && sum_fits(p.hi, q.hi)
}

#[tactic(auto, unfolding(pair::specs::Fits::minus_fits))]
pub fn minus_fits(p: Pair, q: Pair) -> bool
    ensures { result ≡ minus_fits p q }
{
    q.hi <= p.lo && q.lo <= p.hi
}

#[tactic(auto, unfolding(pair::specs::Fits::times_fits, pair::specs::Fits::words, pair::specs::Pairs::times))]
pub fn times_fits(p: Pair, q: Pair, s: u64) -> bool
    ensures { result ≡ times_fits s p q }
{
    floor_fits(p.lo, q.lo, s) && ceil_fits(p.hi, q.hi, s)
}

#[tactic(auto, unfolding(pair::specs::Fits::over_fits, pair::specs::Fits::words, pair::specs::Pairs::over))]
pub fn over_fits(p: Pair, q: Pair, s: u64) -> bool
    ensures { result ≡ over_fits s p q }
{
    floor_fits(p.lo, s, q.hi) && ceil_fits(p.hi, s, q.lo)
}

#[tactic(auto, using(crate::proofs::Deciding::word_test), unfolding(pair::specs::Fits::ratio_fits))]
pub fn ratio_fits(a: u64, b: u64, s: u64) -> bool
    ensures { result ≡ ratio_fits s a b }
{
    0 < b && wide::high(a, s) == 0
}

// a / b is a whole number of units: b divides a * s just where it divides a % b * s.
#[tactic(auto, using(crate::proofs::Deciding::ratio_tests))]
fn ratio_exact(a: u64, b: u64, s: u64) -> bool
    ensures { result ≡ exact_ratio s a b }
{
    if b == 0 {
        return false;
    }
    let (_, rest) = wide::product_by(a % b, s, b);
    0 < s && rest == 0
}

// a / b is a whole number of units, and p times n / d fits.
fn exact_fits(p: Pair, a: u64, b: u64, s: u64, n: u64, d: u64) -> bool
    ensures { result ≡ (exact_ratio s a b && ((ltb 0 d && word (p.lo * n / d)) && (ltb 0 d && word (ceil_div (p.hi * n) d)))) }
{
    ratio_exact(a, b, s) && floor_fits(p.lo, n, d) && ceil_fits(p.hi, n, d)
}

#[tactic(auto, using(crate::proofs::Deciding::times_ratio_test))]
pub fn times_ratio_fits(p: Pair, a: u64, b: u64, s: u64) -> bool
    ensures { result ≡ times_ratio_fits s p a b }
{
    exact_fits(p, a, b, s, a, b)
}

#[tactic(auto, using(crate::proofs::Deciding::over_ratio_test))]
pub fn over_ratio_fits(p: Pair, a: u64, b: u64, s: u64) -> bool
    ensures { result ≡ over_ratio_fits s p a b }
{
    exact_fits(p, a, b, s, b, a)
}

// p * s is below 2^70 just where its upper word is below 2^6.
#[tactic(auto, using(crate::proofs::Deciding::high_test), unfolding(pair::specs::Fits::root_fits, pair::specs::Fits::ordered))]
pub fn root_fits(p: Pair, s: u64) -> bool
    ensures { result ≡ root_fits s p }
{
    p.lo <= p.hi && s % 64 == 0 && wide::high(p.hi, s) < 64
}

// p * s * s is below 2^76 just where p * (s / 64) * (s / 64) is below 2^64.
#[tactic(auto, using(crate::proofs::Deciding::cube_tests), unfolding(pair::specs::Fits::cube_root_fits, pair::specs::Fits::ordered))]
pub fn cube_root_fits(p: Pair, s: u64) -> bool
    ensures { result ≡ cube_root_fits s p }
{
    let part = s / 64;
    if wide::high(p.hi, part) != 0 {
        return false;
    }
    p.lo <= p.hi && s % 64 == 0 && wide::high(p.hi * part, part) == 0
}

// How far from zero an end lies.
#[tactic(auto, unfolding(pair::specs::SignedPairs::reach))]
fn reach_of(a: Signed) -> u64
    ensures { result ≡ reach a }
{
    a.lo.unsigned_abs().max(a.hi.unsigned_abs()) as u64
}

#[tactic(auto, unfolding(pair::specs::Fits::word))]
pub fn sizes_fit(x: i128, y: i128) -> bool
    ensures { result ≡ word (unsigned_abs x + unsigned_abs y) }
{
    x.unsigned_abs().saturating_add(y.unsigned_abs()) <= u64::MAX as u128
}

#[tactic(auto, unfolding(pair::specs::Fits::signed_plus_fits))]
pub fn signed_plus_fits(a: Signed, b: Signed) -> bool
    ensures { result ≡ signed_plus_fits a b }
{
    sum_fits(reach_of(a), reach_of(b))
}

#[tactic(auto, using(crate::proofs::Deciding::order_test), unfolding(pair::specs::Fits::signed_ordered))]
fn is_ordered(a: Signed) -> bool
    ensures { result ≡ signed_ordered a }
{
    a.lo <= a.hi
}

#[tactic(auto, unfolding(pair::specs::Fits::signed_times_fits))]
pub fn signed_times_fits(a: Signed, b: Signed, s: u64) -> bool
    ensures { result ≡ signed_times_fits s a b }
{
    is_ordered(a) && is_ordered(b) && ceil_fits(reach_of(a), reach_of(b), s)
}

pub fn signed_times_pair_fits(a: Signed, p: Pair, s: u64) -> bool
    ensures { result ≡ signed_times_fits s a (signed p) }
{
    signed_times_fits(a, Signed::from(p), s)
}

#[tactic(auto, unfolding(pair::specs::Fits::signed_over_fits, pair::specs::Fits::ordered))]
pub fn signed_over_fits(a: Signed, q: Pair, s: u64) -> bool
    ensures { result ≡ signed_over_fits s a q }
{
    q.lo <= q.hi && ceil_fits(reach_of(a), s, q.lo)
}
