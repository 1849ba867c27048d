// The working of a whole section.
// (docs/WORKING.md, 11 to 13.)
ghost use Rattle.std.specs.Prelude.{◌≡◌};
ghost use Rattle.section.specs.Working.{web_kept, effective_flange, effective, full_flange, full, mid_lines, member_of, worked};
ghost use Rattle.section.specs.Forms.{work_of};
ghost use Rattle.section.specs.Room.{MidRoom, LipRoom};
ghost use Rattle.section.specs.SectionRoom.{WebKeptRoom, EffectiveRoom, FullFlangeRoom, FullRoom, SheetRoom};

use crate::factors::Slenderness;
use crate::{
    Common, EffectiveFlange, EffectiveParts, Member, MidLines, RefinedFlange, Scale, Sheet, Steel,
    Stiffener, Work, moments, rounds, widths,
};
use pair::{Both, Pair};

// he = 0.5 * rho * hp of the web.
#[tactic(auto, unfolding(crate::specs::Working::web_kept))]
fn web_kept(s: Scale, y: Common) -> Pair
    requires { WebKeptRoom s.fineness y }
    ensures { result ≡ web_kept s.fineness y }
{
    let u = widths::plane_slenderness_squared(s, y.steel, y.hp).root(s.units());
    widths::half_kept(s, Slenderness::new(s, u).plane_share(), y.hp)
}

// What counts of a flange, from the first working and the last: be1 is that of the first and stays.
fn effective_flange(first: RefinedFlange, last: RefinedFlange) -> EffectiveFlange
    ensures { result ≡ effective_flange first last }
{
    EffectiveFlange {
        be1: first.stiffener.be2,
        stiffener: last.stiffener,
        chi: last.chi,
    }
}

// What counts after the sheet's refining rounds.
#[tactic(auto, unfolding(crate::specs::Working::effective))]
fn effective_section(s: Scale, x: Member, times: u64) -> EffectiveParts
    requires { EffectiveRoom s.fineness x }
    ensures { result ≡ effective s.fineness x times }
{
    let first = rounds::first_round(s, x);
    let last = rounds::refined(s, x, first, times);
    let he = web_kept(s, x.common);
    EffectiveParts {
        flanges: first.zip(last).map(|(f, l)| effective_flange(f, l)),
        p: he,
        m: he,
    }
}

// A flange that counts in full, with its lip: be1 = be2 = bp / 2, c_eff = cp, and factor 1.
fn full_flange(s: Scale, cp: Pair, bp: Pair) -> EffectiveFlange
    requires { FullFlangeRoom s.fineness cp bp }
    ensures { result ≡ full_flange s.fineness cp bp }
{
    let half = bp.over_ratio(2, 1, s.units());
    EffectiveFlange {
        be1: half,
        stiffener: Stiffener {
            be2: half,
            c: cp,
            a: half.plus(cp),
        },
        chi: s.one(),
    }
}

// All full, and he = hp / 2.
#[tactic(auto, unfolding(crate::specs::Working::full))]
pub fn full_section(s: Scale, l: MidLines) -> EffectiveParts
    requires { FullRoom s.fineness l.hp l.cp l.bp.one l.bp.two }
    ensures { result ≡ full s.fineness l.hp l.cp l.bp.one l.bp.two }
{
    let he = l.hp.over_ratio(2, 1, s.units());
    EffectiveParts {
        flanges: l.bp.map(|bp| full_flange(s, l.cp, bp)),
        p: he,
        m: he,
    }
}

// The mid-line lengths of a sheet.
pub fn lines_of(s: Scale, q: Sheet) -> MidLines
    requires hp { MidRoom s.fineness q.h q.tnom.0 }
    requires cp { LipRoom s.fineness q.c q.tnom.0 }
    requires one { MidRoom s.fineness q.b1 q.tnom.0 }
    requires two { MidRoom s.fineness q.b2 q.tnom.0 }
    ensures { result ≡ mid_lines s.fineness q }
{
    let outer = Both {
        one: q.b1,
        two: q.b2,
    };
    MidLines {
        hp: widths::mid_line(s, q.h, q.tnom),
        cp: widths::lip_line(s, q.c, q.tnom),
        bp: outer.map(|b| widths::mid_line(s, b, q.tnom)),
    }
}

// The member that a sheet describes, whose mid-line lengths are l.
#[tactic(auto, using(crate::proofs::RoundForms::own_width))]
fn member_of(s: Scale, q: Sheet, l: MidLines) -> Member
    requires room { SheetRoom s.fineness q }
    requires lines { l ≡ mid_lines s.fineness q }
    ensures { result ≡ member_of s.fineness q }
{
    let steel = Steel { t: q.t, fyb: q.fyb };
    let common = Common {
        steel,
        hp: l.hp,
        cp: l.cp,
    };
    let one = rounds::flange_of(s, steel, l.cp, l.bp.one);
    let two = rounds::second_flange(s, steel, l.cp, l.bp.two, one);
    Member {
        common,
        flanges: Both { one, two },
    }
}

// Area, axes and shift of the effective section, beside the gross section.
#[tactic(auto, unfolding(crate::specs::Working::worked, crate::specs::Forms::work_of))]
pub fn work_of(s: Scale, q: Sheet) -> Work
    requires { SheetRoom s.fineness q }
    ensures { result ≡ work_of (worked s.fineness q) }
{
    let l = lines_of(s, q);
    let effective = effective_section(s, member_of(s, q, l), q.rounds);
    let length = moments::length(s, effective);
    let z = moments::axis(s, l.hp, effective, length);
    let full = full_section(s, l);
    let gross = moments::axis(s, l.hp, full, moments::length(s, full));
    Work {
        area: widths::constant_times(s, q.t.0, 100, length),
        chi1: effective.flanges.one.chi,
        chi2: effective.flanges.two.chi,
        z,
        gross,
        shift: z.minus(gross),
    }
}
