// The part of a width that counts and the thickness factor, at the ends of a slenderness: each
// falls, so its lower end comes from the upper end. (docs/WORKING.md, 6, 7 and 9.)
ghost use Rattle.std.specs.Prelude.{◌≡◌, true, ◌*◌, ◌^◌, ◌≤◌, ◌<◌};
ghost use Rattle.pair.specs.Pairs.{root};
ghost use Rattle.pair.specs.Fits.{root_fits};
ghost use Rattle.section.specs.Working.{scale_of, ρ, ρ_plane, ρ_lip, χ_before, χ_from, χ};
ghost use Rattle.section.specs.Room.{Slim, Squared, SquareDivided};

use crate::{Curve, Scale};
use pair::wide::{Down, Rounding, Up};
use pair::{Both, Pair, wide};

// Of a web or flange, and of a lip.
pub const PLANE: Curve = Curve {
    full: 673_000,
    less: 220_000,
};

pub const LIP: Curve = Curve {
    full: 748_000,
    less: 188_000,
};

// A slenderness of at most 40, in units of its scale.
#[derive(Clone, Copy, Debug, PartialEq, Eq)]
pub struct Slenderness {
    pub scale: Scale,
    pub u: Pair,
    ghost order: { u.lo ≤ u.hi },
    ghost most: { u.hi ≤ 40000000 * scale.fineness },
}

// n / d rounded, where n is less than three times d: without a division, and without a branch, since none can be
// foreseen.
fn thrice_by<R: Rounding>(n: u64, d: u64) -> u64
    requires few { n < 3 * d }
    requires fits { 3 * d < 2 ^ 64 }
    ensures { result ≡ R.over n d }
{
    let whole = u64::from(d <= n) + u64::from(2 * d <= n);
    whole + R::added(n - whole * d)
}

// a * s divided by u twice: the second quotient, and what both divisions leave, put together over u².
fn twice_by(a: u64, s: u64, u: u64) -> (u64, u64)
    requires { Squared a s u }
    ensures { SquareDivided (a * s) u result.0 result.1 }
{
    let first = a / u * s;
    (first / u, first % u * u + a % u * s)
}

// a * s / u² rounded, of a share past its limit. Where a * s passes a word it is divided by u twice: the same, in
// less time.
fn by_square<R: Rounding>(a: u64, s: u64, u: u64) -> u64
    requires { Squared a s u }
    ensures { result ≡ R.over (a * s) (u * u) }
{
    if let Some(n) = a.checked_mul(s) {
        return wide::quotient::<R>(n, u * u);
    }
    let (whole, rest) = twice_by(a, s, u);
    whole + thrice_by::<R>(rest, u * u)
}

// The thickness factor below 1.38: 1 up to 0.65, else at most 1.47 - 0.723 * u.
#[tactic(auto, using(crate::proofs::FactorForms::before_full, crate::proofs::FactorForms::before_is))]
fn before_jump<R: Rounding>(s: Scale, u: u64) -> u64
    requires { u < 1380000 * s.fineness }
    ensures { result ≡ χ_before s.fineness R.over u }
{
    let units = s.units();
    if u <= s.fineness * 650_000 {
        return units;
    }
    units.min(wide::quotient::<R>(1470 * units - 723 * u, 1000))
}

// The thickness factor from 1.38: 0.66 / u.
#[tactic(auto, using(crate::proofs::FactorForms::past_is))]
fn past_jump<R: Rounding>(s: Scale, u: u64) -> u64
    requires least { 1380000 * s.fineness ≤ u }
    requires most { u ≤ 40000000 * s.fineness }
    ensures { result ≡ χ_from s.fineness R.over u }
{
    let units = s.units();
    wide::quotient::<R>(66 * (units * units), 100 * u)
}

impl Slenderness {
    // The slenderness u at a scale.
    pub fn new(scale: Scale, u: Pair) -> Self
        requires { Slim scale.fineness u }
        ensures scale { result.scale ≡ scale }
        ensures u { result.u ≡ u }
    {
        Slenderness { scale, u }
    }

    // The part of a width that counts: 1 up to a slenderness of full, else at most (u - less) / u².
    pub fn share(self, curve: Curve) -> Pair
        ensures { result ≡ ρ self.scale.fineness (self.scale.fineness * curve.full) (self.scale.fineness * curve.less) self.u }
    {
        let units = self.scale.units();
        let limit = self.scale.fineness * curve.full;
        let off = self.scale.fineness * curve.less;
        let Pair { lo, hi } = self.u;
        if hi <= limit {
            return Pair::exact(units);
        }
        let least = units.min(by_square::<Down>((hi - off) * units, units, hi));
        if lo <= limit {
            return Pair {
                lo: least,
                hi: units,
            };
        }
        let most = units.min(by_square::<Up>((lo - off) * units, units, lo));
        Pair {
            lo: least,
            hi: most,
        }
    }

    // The same of a web or flange.
    #[tactic(auto, using(crate::proofs::ShareForms::plane_share_is))]
    pub fn plane_share(self) -> Pair
        ensures { result ≡ ρ_plane self.scale.fineness self.u }
    {
        self.share(PLANE)
    }

    // The same of a lip.
    #[tactic(auto, using(crate::proofs::ShareForms::lip_share_is))]
    fn lip_share(self) -> Pair
        ensures { result ≡ ρ_lip self.scale.fineness self.u }
    {
        self.share(LIP)
    }

    // The thickness factor of a pair that lies across 1.38, where the rule jumps up.
    fn factor_across(self) -> Pair
        requires low { self.u.lo < 1380000 * self.scale.fineness }
        requires high { 1380000 * self.scale.fineness ≤ self.u.hi }
        ensures { result ≡ χ self.scale.fineness self.u }
    {
        let s = self.scale;
        Pair {
            lo: past_jump::<Down>(s, self.u.hi).min(s.fineness * 472_260),
            hi: before_jump::<Up>(s, self.u.lo).max(wide::quotient::<Up>(66 * s.units(), 138)),
        }
    }

    // The thickness factor.
    pub fn factor(self) -> Pair
        ensures { result ≡ χ self.scale.fineness self.u }
    {
        let Pair { lo, hi } = self.u;
        let jump = self.scale.fineness * 1_380_000;
        if hi < jump {
            return Pair {
                lo: before_jump::<Down>(self.scale, hi),
                hi: before_jump::<Up>(self.scale, lo),
            };
        }
        if lo < jump {
            return self.factor_across();
        }
        Pair {
            lo: past_jump::<Down>(self.scale, hi),
            hi: past_jump::<Up>(self.scale, lo),
        }
    }
}

// The parts of a flange and of its lip that count, from u² of each. Up to 0.673² and 0.748² both count
// in full, and no root is worked.
#[tactic(auto, using(crate::proofs::ShareForms::in_full))]
pub fn shares(s: Scale, plane: Pair, lip: Pair) -> Both<Pair>
    requires plane { root_fits (scale_of s.fineness) plane ≡ true }
    requires lip { root_fits (scale_of s.fineness) lip ≡ true }
    requires slim_plane { Slim s.fineness (root (scale_of s.fineness) plane) }
    requires slim_lip { Slim s.fineness (root (scale_of s.fineness) lip) }
    ensures plane { result.one ≡ ρ_plane s.fineness (root (scale_of s.fineness) plane) }
    ensures lip { result.two ≡ ρ_lip s.fineness (root (scale_of s.fineness) lip) }
{
    if plane.hi <= s.fineness * 452_929 && lip.hi <= s.fineness * 559_504 {
        let full = s.one();
        return Both {
            one: full,
            two: full,
        };
    }
    let units = s.units();
    Both {
        one: Slenderness::new(s, plane.root(units)).plane_share(),
        two: Slenderness::new(s, lip.root(units)).lip_share(),
    }
}
