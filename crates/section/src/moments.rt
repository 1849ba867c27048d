// Length and first moment of what is kept, and the neutral axis.
// (docs/WORKING.md, 11 to 13.)
ghost use Rattle.std.specs.Prelude.{◌≡◌, true};
ghost use Rattle.pair.specs.Fits.{signed_plus_fits};
ghost use Rattle.pair.specs.SignedPairs.{signed};
ghost use Rattle.section.specs.Working.{◌⊞◌, kept_length, lip_moment, flange_moment, far_web_moment};
ghost use Rattle.section.specs.Working.{near_web_moment, near_lip_moment, moment, z};
ghost use Rattle.section.specs.SectionRoom.{LengthRoom, LipMomentRoom, FlangeMomentRoom, FarWebRoom, NearWebRoom, NearLipRoom};
ghost use Rattle.section.specs.SectionRoom.{outer, OuterRoom, WebRoom, MomentRoom, AxisRoom};

use crate::{EffectiveParts, Scale};
use pair::Pair;
use pair::signed::Signed;

// L, the length that counts.
#[tactic(auto, unfolding(crate::specs::Working::kept_length))]
pub fn length(s: Scale, x: EffectiveParts) -> Pair
    requires { LengthRoom s.fineness x }
    ensures { result ≡ kept_length s.fineness x }
{
    let s = s.units();
    let one = x.flanges.one;
    let two = x.flanges.two;
    one.be1
        .plus(two.be1)
        .plus(x.p)
        .plus(x.m)
        .plus(one.stiffener.a.times(one.chi, s))
        .plus(two.stiffener.a.times(two.chi, s))
}

// c2 * chi2 * (hp - c2 / 2), which may lie below zero.
#[tactic(auto, using(pair::proofs::Laws::signed_times_comm), unfolding(crate::specs::Working::lip_moment))]
fn lip_moment(s: Scale, hp: Pair, c: Pair, chi: Pair) -> Signed
    requires { LipMomentRoom s.fineness hp c chi }
    ensures { result ≡ lip_moment s.fineness hp c chi }
{
    let s = s.units();
    Signed::between(hp, c.over_ratio(2, 1, s)).times(c.times(chi, s), s)
}

// hp * (be2 * chi2 + be1), of flange 2.
#[tactic(auto, unfolding(crate::specs::Working::flange_moment))]
fn flange_moment(s: Scale, hp: Pair, be1: Pair, be2: Pair, chi: Pair) -> Pair
    requires { FlangeMomentRoom s.fineness hp be1 be2 chi }
    ensures { result ≡ flange_moment s.fineness hp be1 be2 chi }
{
    let s = s.units();
    hp.times(be2.times(chi, s).plus(be1), s)
}

// m * (hp - m / 2), of the web's part at flange 2.
#[tactic(auto, unfolding(crate::specs::Working::far_web_moment))]
fn far_web_moment(s: Scale, hp: Pair, m: Pair) -> Pair
    requires { FarWebRoom s.fineness hp m }
    ensures { result ≡ far_web_moment s.fineness hp m }
{
    let s = s.units();
    m.times(hp.minus(m.over_ratio(2, 1, s)), s)
}

// p * p / 2, of the web's part at flange 1.
#[tactic(auto, unfolding(crate::specs::Working::near_web_moment))]
fn near_web_moment(s: Scale, p: Pair) -> Pair
    requires { NearWebRoom s.fineness p }
    ensures { result ≡ near_web_moment s.fineness p }
{
    let s = s.units();
    p.times(p, s).over_ratio(2, 1, s)
}

// c1 * c1 * chi1 / 2.
#[tactic(auto, unfolding(crate::specs::Working::near_lip_moment))]
fn near_lip_moment(s: Scale, c: Pair, chi: Pair) -> Pair
    requires { NearLipRoom s.fineness c chi }
    ensures { result ≡ near_lip_moment s.fineness c chi }
{
    let s = s.units();
    c.times(c, s).times(chi, s).over_ratio(2, 1, s)
}

fn with_pair(a: Signed, p: Pair) -> Signed
    requires { signed_plus_fits a (signed p) ≡ true }
    ensures { result ≡ a ⊞ p }
{
    a.plus(Signed::from(p))
}

// The moment of flange 2 and its lip.
fn outer_moment(s: Scale, hp: Pair, x: EffectiveParts) -> Signed
    requires { OuterRoom s.fineness hp x }
    ensures { result ≡ outer s.fineness hp x }
{
    let two = x.flanges.two;
    let lip = lip_moment(s, hp, two.stiffener.c, two.chi);
    with_pair(
        lip,
        flange_moment(s, hp, two.be1, two.stiffener.be2, two.chi),
    )
}

// With the moments of the web's parts.
fn with_web(s: Scale, hp: Pair, p: Pair, m: Pair, a: Signed) -> Signed
    requires { WebRoom s.fineness hp p m a }
    ensures { result ≡ a ⊞ far_web_moment s.fineness hp m ⊞ near_web_moment s.fineness p }
{
    let far = with_pair(a, far_web_moment(s, hp, m));
    with_pair(far, near_web_moment(s, p))
}

// The moment of all kept parts about flange 1.
#[tactic(auto, unfolding(crate::specs::Working::moment))]
pub fn first_moment(s: Scale, hp: Pair, x: EffectiveParts) -> Signed
    requires { MomentRoom s.fineness hp x }
    ensures { result ≡ moment s.fineness hp x }
{
    let one = x.flanges.one;
    let web = with_web(s, hp, x.p, x.m, outer_moment(s, hp, x));
    with_pair(web, near_lip_moment(s, one.stiffener.c, one.chi))
}

// z, the distance of the neutral axis from flange 1; l is L of the same kept parts.
#[tactic(auto, unfolding(crate::specs::Working::z))]
pub fn axis(s: Scale, hp: Pair, x: EffectiveParts, l: Pair) -> Signed
    requires room { AxisRoom s.fineness hp x }
    requires length { l ≡ kept_length s.fineness x }
    ensures { result ≡ z s.fineness hp x }
{
    first_moment(s, hp, x).over(l, s.units())
}
