// The buckling coefficient of a lip. (docs/WORKING.md, 4 to 7.)
ghost use Rattle.std.specs.Prelude.{◌≡◌, ◌*◌, ◌≤◌};
ghost use Rattle.section.specs.Working.{k_past, k_at, k};
ghost use Rattle.section.specs.Room.{PastRoom, LipRatio};

use crate::{Scale, widths};
use pair::Pair;

// Past q = 0.35: 0.5 + 0.83 * the cube root of (q - 0.35) * (q - 0.35).
#[tactic(auto, unfolding(crate::specs::Working::k_past))]
fn coefficient_past(s: Scale, q: Pair) -> Pair
    requires { PastRoom s.fineness q }
    ensures { result ≡ k_past s.fineness q }
{
    let units = s.units();
    let past = q.minus(Pair::ratio(35, 100, units));
    let root = past.times(past, units).cube_root(units);
    Pair::ratio(1, 2, units).plus(widths::constant_times(s, 83, 100, root))
}

// At one value of q: 0.5 up to 0.35.
#[tactic(auto, using(crate::proofs::CoefficientForms::at_one_ratio))]
fn coefficient_at(s: Scale, q: u64) -> Pair
    requires { q ≤ 600000 * s.fineness }
    ensures { result ≡ k_at s.fineness q }
{
    if q <= s.fineness * 350_000 {
        return Pair::ratio(1, 2, s.units());
    }
    coefficient_past(s, Pair::exact(q))
}

// End by end: it rises with q. Past 0.35 each end of the formula rests on the same end of q, so it is
// worked once for both.
#[tactic(auto, unfolding(crate::specs::Working::k))]
pub fn coefficient(s: Scale, q: Pair) -> Pair
    requires { LipRatio s.fineness q }
    ensures { result ≡ k s.fineness q }
{
    if s.fineness * 350_000 < q.lo {
        return coefficient_past(s, q);
    }
    Pair {
        lo: coefficient_at(s, q.lo).lo,
        hi: coefficient_at(s, q.hi).hi,
    }
}
