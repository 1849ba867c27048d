// Mid-line lengths, slenderness, and the part of a width that counts.
// (docs/WORKING.md, 4 to 7.)
ghost use Rattle.std.specs.Prelude.{◌≡◌, true};
ghost use Rattle.pair.specs.Fits.{times_ratio_fits};
ghost use Rattle.pair.specs.declared.Pair.{Pair};
ghost use Rattle.section.specs.Working.{scale_of, constant, ◌⊗◌, mid_line, lip_line, u², half_kept, mm, whole};
ghost use Rattle.section.specs.Parts.{yield_over_euler};
ghost use Rattle.section.specs.Room.{MidRoom, LipRoom, SlenderRoom, HalfRoom};

use crate::{Nominal, Scale, Steel};
use pair::Pair;

// a / b times p, the constant first as the paper writes it.
#[tactic(auto, using(pair::proofs::Laws::times_comm))]
pub fn constant_times(s: Scale, a: u64, b: u64, p: Pair) -> Pair
    requires { times_ratio_fits (scale_of s.fineness) p a b ≡ true }
    ensures { result ≡ ◌⊗◌ s.fineness (constant s.fineness a b) p }
{
    p.times_ratio(a, b, s.units())
}

// w - tnom, for the web and the flanges.
#[tactic(auto, unfolding(crate::specs::Working::mid_line))]
pub fn mid_line(s: Scale, w: u64, tnom: Nominal) -> Pair
    requires { MidRoom s.fineness w tnom.0 }
    ensures { result ≡ mid_line s.fineness w tnom.0 }
{
    let s = s.units();
    Pair::ratio(w, 100, s).minus(Pair::ratio(tnom.0, 100, s))
}

// c - tnom / 2, for the lip.
#[tactic(auto, unfolding(crate::specs::Working::lip_line))]
pub fn lip_line(s: Scale, c: u64, tnom: Nominal) -> Pair
    requires { LipRoom s.fineness c tnom.0 }
    ensures { result ≡ lip_line s.fineness c tnom.0 }
{
    let s = s.units();
    let half = Pair::ratio(tnom.0, 100, s).over_ratio(2, 1, s);
    Pair::ratio(c, 100, s).minus(half)
}

// (w / t) * (w / t) * fyb / 189541.6, of a plane of width w: u² times its buckling coefficient.
// It has room where u² has room with some coefficient k.
fn yield_over_euler(s: Scale, steel: Steel, w: Pair) -> Pair
    requires { (k : Pair) × SlenderRoom s.fineness steel.t.0 steel.fyb k w }
    ensures { result ≡ yield_over_euler s.fineness steel.t.0 steel.fyb w }
{
    let s = s.units();
    let ratio = w.over_ratio(steel.t.0, 100, s);
    ratio
        .times(ratio, s)
        .times_ratio(steel.fyb, 1, s)
        .over_ratio(1_895_416, 10, s)
}

// u² = (w / t) * (w / t) * fyb / 189541.6 / k, of a plane of width w.
#[tactic(auto, using(crate::proofs::WidthForms::slenderness_is))]
pub fn slenderness_squared(s: Scale, steel: Steel, coefficient: Pair, w: Pair) -> Pair
    requires { SlenderRoom s.fineness steel.t.0 steel.fyb coefficient w }
    ensures { result ≡ u² s.fineness (mm s.fineness steel.t.0) (whole s.fineness steel.fyb) coefficient w }
{
    yield_over_euler(s, steel, w).over(coefficient, s.units())
}

// u² of a web or flange, whose coefficient is 4: an exact value, so the scale cancels.
#[tactic(auto, using(crate::proofs::WidthForms::slenderness_is, crate::proofs::WidthForms::four_divides))]
pub fn plane_slenderness_squared(s: Scale, steel: Steel, w: Pair) -> Pair
    requires { SlenderRoom s.fineness steel.t.0 steel.fyb (whole s.fineness 4) w }
    ensures { result ≡ u² s.fineness (mm s.fineness steel.t.0) (whole s.fineness steel.fyb) (whole s.fineness 4) w }
{
    yield_over_euler(s, steel, w).over_ratio(4, 1, s.units())
}

// 0.5 * r * w.
#[tactic(auto, unfolding(crate::specs::Working::half_kept))]
pub fn half_kept(s: Scale, r: Pair, w: Pair) -> Pair
    requires { HalfRoom s.fineness r w }
    ensures { result ≡ half_kept s.fineness r w }
{
    constant_times(s, 1, 2, r).times(w, s.units())
}
