// Pairs whose ends may lie below zero, and the rounding of their ends. A size may need all 64 bits.
ghost use Rattle.std.specs.Prelude.{◌≡◌, true, ◌*◌, ◌^◌, ◌<◌, pos, ◌*ℤ◌, unsigned_abs};
ghost use Rattle.pair.specs.Rounding.{ceil_div};
ghost use Rattle.pair.specs.Integers.{least, floor_over, ceil_over};
ghost use Rattle.pair.specs.SignedPairs.{signed, opposite, difference, signed_plus, signed_minus, signed_times, signed_over, coarser, reach};
ghost use Rattle.pair.specs.Fits.{signed_plus_fits, signed_times_fits, signed_over_fits};

use crate::wide::{Down, Up};
use crate::{Pair, wide};
use std::marker::Model;

// A lower and an upper end, in units of 1/s, each of a size below 2^64.
#[derive(Clone, Copy, Debug, PartialEq, Eq)]
pub struct Signed {
    pub lo: i128,
    pub hi: i128,
}

impl Model for Signed {
    ghost use Rattle.std.specs.Prelude.{◌^◌, ◌<◌, unsigned_abs};
    ghost use Rattle.pair.specs.SignedPairs.{SignedPair, ◌upto◌};

    ghost Value = { SignedPair };

    ghost view = { λ a. a.lo upto a.hi };

    ghost invariant = { λ a. (unsigned_abs a.lo < 2 ^ 64) × (unsigned_abs a.hi < 2 ^ 64) };

    ghost inverse = { λ a. record { lo = a.lo; hi = a.hi } };
}

// a * b / d rounded toward minus infinity, worked in words by size and sign.
#[tactic(auto, using(crate::proofs::IntegerRounding::by_sign))]
pub fn floor_by(a: i128, b: i128, d: u64) -> i128
    requires first { unsigned_abs a < 2 ^ 64 }
    requires second { unsigned_abs b < 2 ^ 64 }
    requires some { 0 < d }
    requires fits { ceil_div (unsigned_abs a * unsigned_abs b) d < 2 ^ 64 }
    ensures value { result ≡ floor_over (a *ℤ b) d }
    ensures size { unsigned_abs result < 2 ^ 64 }
{
    let size = a.unsigned_abs() as u64;
    let times = b.unsigned_abs() as u64;
    if (a < 0) == (b < 0) {
        wide::at_scale::<Down>(size, times, d) as i128
    } else {
        -(wide::at_scale::<Up>(size, times, d) as i128)
    }
}

// a * b / d rounded toward plus infinity: toward minus infinity on the other side of zero.
#[tactic(auto, using(crate::proofs::Opposites::by_opposite))]
pub fn ceil_by(a: i128, b: i128, d: u64) -> i128
    requires first { unsigned_abs a < 2 ^ 64 }
    requires second { unsigned_abs b < 2 ^ 64 }
    requires some { 0 < d }
    requires fits { ceil_div (unsigned_abs a * unsigned_abs b) d < 2 ^ 64 }
    ensures value { result ≡ ceil_over (a *ℤ b) d }
    ensures size { unsigned_abs result < 2 ^ 64 }
{
    -floor_by(-a, b, d)
}

impl From<Pair> for Signed {
    ghost from_gives = { λ p a. a ≡ signed p };

    #[tactic(auto, unfolding(crate::specs::SignedPairs::signed))]
    fn from(p: Pair) -> Signed {
        Signed {
            lo: p.lo as i128,
            hi: p.hi as i128,
        }
    }
}

impl Signed {
    // p - q.
    #[tactic(auto, unfolding(crate::specs::SignedPairs::difference))]
    pub fn between(p: Pair, q: Pair) -> Self
        ensures { result ≡ difference p q }
    {
        Signed {
            lo: p.lo as i128 - q.hi as i128,
            hi: p.hi as i128 - q.lo as i128,
        }
    }

    // The ends change places.
    #[tactic(auto, using(crate::proofs::Opposites::zero_less_steps), unfolding(crate::specs::SignedPairs::opposite))]
    fn opposite(self) -> Self
        ensures { result ≡ opposite self }
    {
        Signed {
            lo: -self.hi,
            hi: -self.lo,
        }
    }

    // The sum, end by end.
    #[tactic(auto, using(crate::proofs::SignedForms::sums), unfolding(crate::specs::SignedPairs::signed_plus))]
    pub fn plus(self, b: Signed) -> Self
        requires { signed_plus_fits self b ≡ true }
        ensures { result ≡ signed_plus self b }
    {
        Signed {
            lo: self.lo + b.lo,
            hi: self.hi + b.hi,
        }
    }

    // The difference: from each end the other's other end.
    #[tactic(auto, using(crate::proofs::SignedForms::sums), unfolding(crate::specs::SignedPairs::signed_minus))]
    pub fn minus(self, b: Signed) -> Self
        requires { signed_plus_fits self b ≡ true }
        ensures { result ≡ signed_minus self b }
    {
        Signed {
            lo: self.lo - b.hi,
            hi: self.hi - b.lo,
        }
    }

    // The lower end of the product with a pair, none of which is below zero: an end below zero takes the pair's upper end.
    #[tactic(auto, using(crate::proofs::SignedForms::low_times))]
    fn low_times(self, p: Pair, s: u64) -> i128
        requires { signed_times_fits s self (signed p) ≡ true }
        ensures value { result ≡ (signed_times s self (signed p)).lo }
        ensures size { unsigned_abs result < 2 ^ 64 }
    {
        let end = if self.lo < 0 { p.hi } else { p.lo };
        floor_by(self.lo, end as i128, s)
    }

    // The smaller product of x and an end, over s, rounded toward minus infinity.
    #[tactic(auto, using(crate::proofs::SignedForms::least_of_two))]
    fn least_by(self, x: i128, s: u64) -> i128
        requires some { 0 < s }
        requires first { unsigned_abs x < 2 ^ 64 }
        requires fits { ceil_div (unsigned_abs x * reach self) s < 2 ^ 64 }
        ensures value { result ≡ least (floor_over (x *ℤ self.lo) s) (floor_over (x *ℤ self.hi) s) }
        ensures size { unsigned_abs result < 2 ^ 64 }
    {
        floor_by(x, self.lo, s).min(floor_by(x, self.hi, s))
    }

    // The lower end of the product, the least product of two ends.
    #[tactic(auto, using(crate::proofs::SignedForms::low_product))]
    fn low_times_signed(self, b: Signed, s: u64) -> i128
        requires { signed_times_fits s self b ≡ true }
        ensures value { result ≡ (signed_times s self b).lo }
        ensures size { unsigned_abs result < 2 ^ 64 }
    {
        b.least_by(self.lo, s).min(b.least_by(self.hi, s))
    }

    // The lower end of the quotient by a pair above zero: an end below zero takes the pair's lower end.
    #[tactic(auto, using(crate::proofs::SignedForms::low_over))]
    fn low_over(self, q: Pair, s: u64) -> i128
        requires { signed_over_fits s self q ≡ true }
        ensures value { result ≡ (signed_over s self q).lo }
        ensures size { unsigned_abs result < 2 ^ 64 }
    {
        let end = if self.lo < 0 { q.lo } else { q.hi };
        floor_by(self.lo, s as i128, end)
    }

    // The upper end of each result is the lower one on the other side of zero.

    // The product with a pair, rounded outward.
    #[tactic(auto, using(crate::proofs::SignedForms::highs))]
    pub fn times(self, p: Pair, s: u64) -> Self
        requires { signed_times_fits s self (signed p) ≡ true }
        ensures { result ≡ signed_times s self (signed p) }
    {
        Signed {
            lo: self.low_times(p, s),
            hi: -self.opposite().low_times(p, s),
        }
    }

    // The product of two that may lie below zero, rounded outward.
    #[tactic(auto, using(crate::proofs::SignedForms::highs))]
    pub fn times_signed(self, b: Signed, s: u64) -> Self
        requires { signed_times_fits s self b ≡ true }
        ensures { result ≡ signed_times s self b }
    {
        Signed {
            lo: self.low_times_signed(b, s),
            hi: -self.opposite().low_times_signed(b, s),
        }
    }

    // The quotient by a pair above zero, rounded outward.
    #[tactic(auto, using(crate::proofs::SignedForms::highs))]
    pub fn over(self, q: Pair, s: u64) -> Self
        requires { signed_over_fits s self q ≡ true }
        ensures { result ≡ signed_over s self q }
    {
        Signed {
            lo: self.low_over(q, s),
            hi: -self.opposite().low_over(q, s),
        }
    }

    // In a unit k times as large.
    #[tactic(auto, using(crate::proofs::SignedForms::coarsened), unfolding(crate::specs::SignedPairs::coarser))]
    pub fn coarser(self, k: u64) -> Self
        requires { 0 < k }
        ensures { result ≡ coarser k self }
    {
        Signed {
            lo: floor_by(self.lo, 1, k),
            hi: ceil_by(self.hi, 1, k),
        }
    }
}
