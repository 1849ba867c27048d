// The stiffeners of both flanges, worked and refined. (docs/WORKING.md, 8 to 10.)
ghost use Rattle.std.specs.Prelude.{◌≡◌};
ghost use Rattle.section.specs.Working.{flange_of, stiffener_of, round, rounds, mm, whole};
ghost use Rattle.section.specs.Parts.{fourth_of, fourths_of, factors, factors_of, lowered, lowered_round};
ghost use Rattle.section.specs.Room.{FlangeRoom, StiffenerRoom, FactorRoom, FactorsRoom, BothFactorsRoom, RoundRoom, Steady, AtMostOwn};

use crate::factors::Slenderness;
use crate::{
    Common, Flange, Member, RefinedFlange, Scale, Steel, Stiffener, coefficients, factors,
    stiffeners, widths,
};
use pair::{Both, Pair};

// A flange of mid-line width bp with its lip.
#[tactic(auto, unfolding(crate::specs::Working::flange_of))]
pub fn flange_of(s: Scale, steel: Steel, cp: Pair, bp: Pair) -> Flange
    requires { FlangeRoom s.fineness steel.t.0 steel.fyb cp bp }
    ensures { result ≡ flange_of s.fineness (mm s.fineness steel.t.0) (whole s.fineness steel.fyb) cp bp }
{
    let coefficient = coefficients::coefficient(s, cp.over(bp, s.units()));
    Flange {
        bp,
        plane: widths::plane_slenderness_squared(s, steel, bp),
        lip: widths::slenderness_squared(s, steel, coefficient, cp),
    }
}

// The second flange, of mid-line width bp, beside the first: the same where both are equally wide.
pub fn second_flange(s: Scale, steel: Steel, cp: Pair, bp: Pair, first: Flange) -> Flange
    requires room { FlangeRoom s.fineness steel.t.0 steel.fyb cp bp }
    requires first { first ≡ flange_of s.fineness (mm s.fineness steel.t.0) (whole s.fineness steel.fyb) cp first.bp }
    ensures { result ≡ flange_of s.fineness (mm s.fineness steel.t.0) (whole s.fineness steel.fyb) cp bp }
{
    if first.bp == bp {
        return first;
    }
    flange_of(s, steel, cp, bp)
}

// be2 = 0.5 * rho * bp and c_eff = rho * cp, u² of plane and lip multiplied by the factor of the
// round before.
#[tactic(auto, unfolding(crate::specs::Working::stiffener_of))]
fn stiffener_of(s: Scale, cp: Pair, f: Flange, before: Pair) -> Stiffener
    requires { StiffenerRoom s.fineness cp f before }
    ensures { result ≡ stiffener_of s.fineness cp f before }
{
    let units = s.units();
    let shares = factors::shares(s, f.plane.times(before, units), f.lip.times(before, units));
    let be2 = widths::half_kept(s, shares.one, f.bp);
    let c = shares.two.times(cp, units);
    Stiffener {
        be2,
        c,
        a: be2.plus(c),
    }
}

// The stiffeners of both flanges, from their factors of the round before: worked once where both
// flanges and both factors are the same.
fn stiffeners_of(s: Scale, x: Member, before: Both<Pair>) -> Both<Stiffener>
    requires one { StiffenerRoom s.fineness x.common.cp x.flanges.one before.one }
    requires two { StiffenerRoom s.fineness x.common.cp x.flanges.two before.two }
    ensures one { result.one ≡ stiffener_of s.fineness x.common.cp x.flanges.one before.one }
    ensures two { result.two ≡ stiffener_of s.fineness x.common.cp x.flanges.two before.two }
{
    let one = stiffener_of(s, x.common.cp, x.flanges.one, before.one);
    if x.flanges.one == x.flanges.two && before.one == before.two {
        return Both { one, two: one };
    }
    Both {
        one,
        two: stiffener_of(s, x.common.cp, x.flanges.two, before.two),
    }
}

// The fourth power of one flange's ud, g its own and o the other's.
fn fourth_of(s: Scale, x: Common, kf: Pair, g: Pair, o: Pair, y: Stiffener) -> Pair
    requires { FactorRoom s.fineness x kf g o y }
    ensures { result ≡ fourth_of s.fineness x kf g o y }
{
    let d = stiffeners::flexibility(s, x.hp, kf, g, o);
    let j = stiffeners::inertia(s, x.steel.t, y);
    stiffeners::slenderness_fourth(s, d, j, stiffeners::stress(s, x.steel, y))
}

// The fourth power of each flange's ud; each flange has its own kf (W-201).
#[tactic(auto, unfolding(crate::specs::Working::kf))]
fn fourths_of(s: Scale, x: Member, y: Both<Stiffener>) -> Both<Pair>
    requires { BothFactorsRoom s.fineness x y }
    ensures { result ≡ fourths_of s.fineness x y }
{
    let units = s.units();
    let g = x.flanges.zip(y).map(|(flange, stiffener)| stiffeners::centre(s, flange.bp, stiffener));
    let kf1 = y.two.a.over(y.one.a, units);
    let kf2 = y.one.a.over(y.two.a, units);
    Both {
        one: fourth_of(s, x.common, kf1, g.one, g.two, y.one),
        two: fourth_of(s, x.common, kf2, g.two, g.one, y.two),
    }
}

// The factors that both flanges' stiffeners give, worked for each.
#[tactic(auto, using(crate::proofs::RoundForms::factor_is), unfolding(crate::specs::Parts::factors, crate::specs::Working::ud))]
fn unequal_factors(s: Scale, x: Member, y: Both<Stiffener>) -> Both<RefinedFlange>
    requires { BothFactorsRoom s.fineness x y }
    ensures { result ≡ factors_of s.fineness x y }
{
    let units = s.units();
    let u = fourths_of(s, x, y).map(|fourth| fourth.root(units).root(units));
    y.zip(u).map(|(stiffener, u)| RefinedFlange {
        stiffener,
        chi: Slenderness::new(s, u).factor(),
    })
}

// The factors of two equally wide flanges with one stiffener, worked once.
#[tactic(auto, using(crate::proofs::RoundForms::factor_is), unfolding(crate::specs::Parts::factors, crate::specs::Working::kf, crate::specs::Working::ud))]
fn equal_factors(s: Scale, common: Common, bp: Pair, y: Stiffener) -> Both<RefinedFlange>
    requires { FactorsRoom s.fineness common bp bp y y }
    ensures { result ≡ factors s.fineness common bp bp y y }
{
    let units = s.units();
    let g = stiffeners::centre(s, bp, y);
    let kf = y.a.over(y.a, units);
    let fourth = fourth_of(s, common, kf, g, g, y);
    let u = fourth.root(units).root(units);
    let one = RefinedFlange {
        stiffener: y,
        chi: Slenderness::new(s, u).factor(),
    };
    Both { one, two: one }
}

// The factors that both flanges' stiffeners give.
fn factors_of(s: Scale, x: Member, y: Both<Stiffener>) -> Both<RefinedFlange>
    requires { BothFactorsRoom s.fineness x y }
    ensures { result ≡ factors_of s.fineness x y }
{
    if x.flanges.one.bp == x.flanges.two.bp && y.one == y.two {
        return equal_factors(s, x.common, x.flanges.one.bp, y.one);
    }
    unequal_factors(s, x, y)
}

// One flange's part of a round, with the smaller of its factor and the one of the round before (W-205).
fn lowered(new: RefinedFlange, last: RefinedFlange) -> RefinedFlange
    ensures { result ≡ lowered new last.chi }
{
    RefinedFlange {
        stiffener: new.stiffener,
        chi: new.chi.smaller(last.chi),
    }
}

// A round, with the smaller of each factor and the one of the round before.
fn lowered_round(new: Both<RefinedFlange>, last: Both<RefinedFlange>) -> Both<RefinedFlange>
    ensures { result ≡ lowered_round new last.one.chi last.two.chi }
{
    new.zip(last).map(|(n, l)| lowered(n, l))
}

// The round behind another. Where both stiffeners stay, it is the same round: the factors that it has
// are at most those that its stiffeners give, so they are the smaller again.
#[tactic(auto, using(crate::proofs::RoundForms::round_is))]
fn next_round(s: Scale, x: Member, last: Both<RefinedFlange>) -> Both<RefinedFlange>
    requires room { RoundRoom s.fineness x last.one.chi last.two.chi }
    requires own { AtMostOwn s.fineness x last }
    ensures { result ≡ round s.fineness x last.one.chi last.two.chi }
{
    let stiffeners = stiffeners_of(s, x, last.map(|flange| flange.chi));
    if stiffeners == last.map(|flange| flange.stiffener) {
        return last;
    }
    lowered_round(factors_of(s, x, stiffeners), last)
}

// The first working, with all factors 1: no factor is above that, so nothing is lowered.
#[tactic(auto, using(crate::proofs::RoundForms::first_is))]
pub fn first_round(s: Scale, x: Member) -> Both<RefinedFlange>
    requires { Steady s.fineness x }
    ensures { result ≡ rounds s.fineness x 0 }
{
    let one = s.one();
    let stiffeners = stiffeners_of(s, x, Both { one, two: one });
    factors_of(s, x, stiffeners)
}

// As many refining rounds as the sheet says, from the first working. A round that leaves both factors
// as they were is the last: the next would be the same.
pub fn refined(s: Scale, x: Member, first: Both<RefinedFlange>, times: u64) -> Both<RefinedFlange>
    requires steady { Steady s.fineness x }
    requires first { first ≡ rounds s.fineness x 0 }
    ensures { result ≡ rounds s.fineness x times }
{
    let mut r = first;
    for _ in 0..times {
        let next = next_round(s, x, r);
        if next.map(|flange| flange.chi) == r.map(|flange| flange.chi) {
            return next;
        }
        r = next;
    }
    r
}
