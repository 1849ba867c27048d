// The stiffener of a flange: what counts of it, and its stiffness.
// (docs/WORKING.md, 8 to 10.)
ghost use Rattle.std.specs.Prelude.{◌≡◌};
ghost use Rattle.section.specs.Working.{constant, ◌⊗◌, ◌⊘◌, g, inertia_of, stress_of, flexibility_of, ud⁴, mm, whole};
ghost use Rattle.section.specs.Room.{CentreRoom, PlateRoom, CubeRoom, FarLipRoom, InertiaRoom};
ghost use Rattle.section.specs.Room.{StressRoom, CrossRoom, BendRoom, LoadRoom, UdRoom};

use crate::{Core, Scale, Steel, Stiffener, widths};
use pair::Pair;

// g = bp - be2 * be2 / (2 * a).
#[tactic(auto, unfolding(crate::specs::Working::g))]
pub fn centre(s: Scale, bp: Pair, x: Stiffener) -> Pair
    requires { CentreRoom s.fineness bp x }
    ensures { result ≡ g s.fineness bp x }
{
    let units = s.units();
    let twice = widths::constant_times(s, 2, 1, x.a);
    bp.minus(x.be2.times(x.be2, units).over(twice, units))
}

// be2 * t * t / 12.
fn plate(s: Scale, t: Core, be2: Pair) -> Pair
    requires { PlateRoom s.fineness t.0 be2 }
    ensures { result ≡ ◌⊘◌ s.fineness (◌⊗◌ s.fineness (◌⊗◌ s.fineness be2 (mm s.fineness t.0)) (mm s.fineness t.0)) (whole s.fineness 12) }
{
    let s = s.units();
    be2.times_ratio(t.0, 100, s)
        .times_ratio(t.0, 100, s)
        .over_ratio(12, 1, s)
}

// c * c * c.
fn cubed(s: Scale, c: Pair) -> Pair
    requires { CubeRoom s.fineness c }
    ensures { result ≡ ◌⊗◌ s.fineness (◌⊗◌ s.fineness c c) c }
{
    let s = s.units();
    c.times(c, s).times(c, s)
}

// solid * be2 / (4 * a).
fn far_lip(s: Scale, solid: Pair, be2: Pair, a: Pair) -> Pair
    requires { FarLipRoom s.fineness solid be2 a }
    ensures { result ≡ ◌⊘◌ s.fineness (◌⊗◌ s.fineness solid be2) (◌⊗◌ s.fineness (whole s.fineness 4) a) }
{
    let units = s.units();
    let four = widths::constant_times(s, 4, 1, a);
    solid.times(be2, units).over(four, units)
}

// J = be2 * t * t / 12 + c * c * c / 12 + c * c * c * be2 / (4 * a).
#[tactic(auto, unfolding(crate::specs::Working::inertia_of))]
pub fn inertia(s: Scale, t: Core, x: Stiffener) -> Pair
    requires { InertiaRoom s.fineness t.0 x }
    ensures { result ≡ inertia_of s.fineness (mm s.fineness t.0) x }
{
    let solid = cubed(s, x.c);
    plate(s, t, x.be2)
        .plus(solid.over_ratio(12, 1, s.units()))
        .plus(far_lip(s, solid, x.be2, x.a))
}

// T = fyb * a / t / 210: divided once, since rounding twice one way is rounding once.
pub fn stress(s: Scale, steel: Steel, x: Stiffener) -> Pair
    requires { StressRoom s.fineness steel.t.0 steel.fyb x.a }
    ensures { result ≡ stress_of s.fineness (mm s.fineness steel.t.0) (whole s.fineness steel.fyb) x }
{
    widths::constant_times(s, steel.fyb, 1, x.a).over_ratio(210 * steel.t.0, 100, s.units())
}

// 0.5 * g * o * hp * kf.
fn cross_term(s: Scale, g: Pair, o: Pair, hp: Pair, kf: Pair) -> Pair
    requires { CrossRoom s.fineness g o hp kf }
    ensures { result ≡ ◌⊗◌ s.fineness (◌⊗◌ s.fineness (◌⊗◌ s.fineness (◌⊗◌ s.fineness (constant s.fineness 1 2) g) o) hp) kf }
{
    let units = s.units();
    widths::constant_times(s, 1, 2, g)
        .times(o, units)
        .times(hp, units)
        .times(kf, units)
}

// D = g * g * hp + g * g * g + 0.5 * g * o * hp * kf, o being the other flange's g.
#[tactic(auto, unfolding(crate::specs::Working::flexibility_of))]
pub fn flexibility(s: Scale, hp: Pair, kf: Pair, g: Pair, o: Pair) -> Pair
    requires { BendRoom s.fineness hp kf g o }
    ensures { result ≡ flexibility_of s.fineness hp kf g o }
{
    let units = s.units();
    let square = g.times(g, units);
    square
        .times(hp, units)
        .plus(square.times(g, units))
        .plus(cross_term(s, g, o, hp, kf))
}

// D / J * T * T.
fn load(s: Scale, d: Pair, j: Pair, t: Pair) -> Pair
    requires { LoadRoom s.fineness d j t }
    ensures { result ≡ ◌⊗◌ s.fineness (◌⊗◌ s.fineness (◌⊘◌ s.fineness d j) t) t }
{
    let s = s.units();
    d.over(j, s).times(t, s).times(t, s)
}

// The fourth power of ud: D / J * T * T * 0.91 / 1000000.
pub fn slenderness_fourth(s: Scale, d: Pair, j: Pair, t: Pair) -> Pair
    requires { UdRoom s.fineness d j t }
    ensures { result ≡ ud⁴ s.fineness d j t }
{
    let units = s.units();
    load(s, d, j, t)
        .times_ratio(91, 100, units)
        .over_ratio(1_000_000, 1, units)
}
