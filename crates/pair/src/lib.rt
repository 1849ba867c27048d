// Values as pairs of whole numbers, a lower and an upper end, in units of 1/s, s being the scale.
// (docs/WORKING.md, 3.)
#![tactic(auto)]

mod guesses;
pub mod roots;
pub mod signed;
pub mod wide;

ghost use Rattle.std.specs.Prelude.{◌≡◌, true};
ghost use Rattle.pair.specs.Pairs.{exact, ratio, plus, minus, times, over, root, cube_root, smaller};
ghost use Rattle.pair.specs.Fits.{ratio_fits, plus_fits, minus_fits, times_fits, over_fits, times_ratio_fits, over_ratio_fits, root_fits, cube_root_fits};

use roots::{Cube, RootScale, Square};
use wide::{Down, Up};

// A value's lower and upper end, in units of 1/s.
#[repr(C)]
#[derive(Clone, Copy, Debug, PartialEq, Eq)]
pub struct Pair {
    pub lo: u64,
    pub hi: u64,
}

// Two of a kind, as of flange 1 and of flange 2.
#[derive(Clone, Copy, Debug, PartialEq, Eq)]
pub struct Both<T> {
    pub one: T,
    pub two: T,
}

impl<T> Both<T> {
    // What f makes of each.
    pub fn map<U, F: Fn(T) -> U>(self, f: F) -> Both<U>
        requires one { F.pre f self.one }
        requires two { F.pre f self.two }
        ensures one { F.post f self.one result.one }
        ensures two { F.post f self.two result.two }
    {
        Both {
            one: f(self.one),
            two: f(self.two),
        }
    }

    // Each beside its counterpart of another.
    pub fn zip<U>(self, other: Both<U>) -> Both<(T, U)>
        ensures one { result.one ≡ (self.one, other.one) }
        ensures two { result.two ≡ (self.two, other.two) }
    {
        Both {
            one: (self.one, other.one),
            two: (self.two, other.two),
        }
    }
}

impl Pair {
    // Both ends equal.
    #[tactic(auto, unfolding(crate::specs::Pairs::exact))]
    pub fn exact(v: u64) -> Self
        ensures { result ≡ exact v }
    {
        Pair { lo: v, hi: v }
    }

    // The exact value a / b.
    #[tactic(auto, using(crate::proofs::Fitting::exact_out), unfolding(crate::specs::Pairs::ratio))]
    pub fn ratio(a: u64, b: u64, s: u64) -> Self
        requires { ratio_fits s a b ≡ true }
        ensures { result ≡ ratio s a b }
    {
        Pair::exact(a * s / b)
    }

    // The sum, end by end.
    #[tactic(auto, using(crate::proofs::Fitting::plus_out), unfolding(crate::specs::Pairs::plus))]
    pub fn plus(self, q: Pair) -> Self
        requires { plus_fits self q ≡ true }
        ensures { result ≡ plus self q }
    {
        Pair {
            lo: self.lo + q.lo,
            hi: self.hi + q.hi,
        }
    }

    // The difference, of which no end lies below zero: from each end the other's other end.
    #[tactic(auto, using(crate::proofs::Fitting::minus_out), unfolding(crate::specs::Pairs::minus))]
    pub fn minus(self, q: Pair) -> Self
        requires { minus_fits self q ≡ true }
        ensures { result ≡ minus self q }
    {
        Pair {
            lo: self.lo - q.hi,
            hi: self.hi - q.lo,
        }
    }

    // The product, end by end, rounded outward.
    #[tactic(auto, using(crate::proofs::Outward::product_outward))]
    #[inline]
    pub fn times(self, q: Pair, s: u64) -> Self
        requires { times_fits s self q ≡ true }
        ensures { result ≡ times s self q }
    {
        // Where both products fit a word they are divided here, in less time.
        let low = self.lo as u128 * q.lo as u128;
        let high = self.hi as u128 * q.hi as u128;
        if low <= u64::MAX as u128 && high <= u64::MAX as u128 {
            return Pair {
                lo: wide::quotient::<Down>(low as u64, s),
                hi: wide::quotient::<Up>(high as u64, s),
            };
        }
        Pair {
            lo: wide::at_scale::<Down>(self.lo, q.lo, s),
            hi: wide::at_scale::<Up>(self.hi, q.hi, s),
        }
    }

    // The quotient of the ends that make it smallest and largest, rounded outward.
    #[tactic(auto, using(crate::proofs::Outward::quotient_outward))]
    pub fn over(self, q: Pair, s: u64) -> Self
        requires { over_fits s self q ≡ true }
        ensures { result ≡ over s self q }
    {
        Pair {
            lo: wide::by::<Down>(self.lo, s, q.hi),
            hi: wide::by::<Up>(self.hi, s, q.lo),
        }
    }

    // Times the exact value a / b: the scale cancels, and the working is that of dividing by b at the scale a.
    #[tactic(auto, using(crate::proofs::Ratios::times_asked, crate::proofs::Ratios::times_given))]
    pub fn times_ratio(self, a: u64, b: u64, s: u64) -> Self
        requires { times_ratio_fits s self a b ≡ true }
        ensures { result ≡ times s self (ratio s a b) }
    {
        self.over(Pair::exact(b), a)
    }

    // Divided by the exact value a / b: times b / a.
    #[tactic(auto, using(crate::proofs::Ratios::over_asked, crate::proofs::Ratios::over_given))]
    pub fn over_ratio(self, a: u64, b: u64, s: u64) -> Self
        requires { over_ratio_fits s self a b ≡ true }
        ensures { result ≡ over s self (ratio s a b) }
    {
        self.over(Pair::exact(a), b)
    }

    // The upper end's root is found from the lower's and what that leaves, here and in cube_root.
    pub fn root(self, s: u64) -> Self
        requires { root_fits s self ≡ true }
        ensures { result ≡ root s self }
    {
        let s = RootScale { units: s };
        let below = Square::scaled(self.lo, s);
        Pair {
            lo: below.root,
            hi: below.above(self.lo, self.hi, s),
        }
    }

    // The cube root, end by end, rounded outward.
    pub fn cube_root(self, s: u64) -> Self
        requires { cube_root_fits s self ≡ true }
        ensures { result ≡ cube_root s self }
    {
        let s = RootScale { units: s };
        let below = Cube::scaled(self.lo, s);
        Pair {
            lo: below.root,
            hi: below.above(self.lo, self.hi, s),
        }
    }

    // The smaller of two values, end by end.
    #[tactic(auto, unfolding(crate::specs::Pairs::smaller))]
    pub fn smaller(self, q: Pair) -> Self
        ensures { result ≡ smaller self q }
    {
        Pair {
            lo: self.lo.min(q.lo),
            hi: self.hi.min(q.hi),
        }
    }
}
