// A sheet that meets the questions on its numbers, its working and the printed figures.
// (docs/WORKING.md, 13 and 15.)
ghost use Rattle.std.specs.Prelude.{◌≡◌, ◌*◌, ◌/◌, ◌≤◌, pos, ◌*ℤ◌};
ghost use Rattle.pair.specs.Integers.{floor_over, ceil_over};
ghost use Rattle.section.specs.Sound.{Sound};
ghost use Rattle.section.specs.Working.{scale_of, worked};
ghost use Rattle.section.specs.Figures.{figures, allowed};
ghost use Rattle.section.specs.Forms.{work_of, figures_of};

use crate::{Figures, Scale, Sheet, Work, sections};
use pair::Pair;
use pair::signed::{self, Signed};
use pair::wide::{self, Down};

// A sheet that meets the questions on its numbers, 2 to 10.
#[derive(Clone, Copy, Debug, PartialEq, Eq)]
pub struct SoundSheet {
    pub sheet: Sheet,
    ghost sound: { ∥ Sound sheet ∥₁ },
}

// A sheet with its working at a scale.
#[derive(Clone, Copy, Debug, PartialEq, Eq)]
pub struct WorkedSheet {
    pub scale: Scale,
    pub sheet: SoundSheet,
    pub work: Work,
    ghost worked: { work ≡ work_of (worked scale.fineness sheet.sheet) },
}

impl SoundSheet {
    // Its working at the scale s.
    pub fn work(self, s: Scale) -> WorkedSheet
        ensures scale { result.scale.fineness ≡ s.fineness }
        ensures sheet { result.sheet.sheet ≡ self.sheet }
    {
        WorkedSheet {
            scale: s,
            sheet: self,
            work: sections::work_of(s, self.sheet),
        }
    }
}

// The lower end in units of 1/k, rounded down.
fn lower_part(s: Scale, p: Pair, k: u64) -> u64
    requires { k ≤ 1000000 }
    ensures { result ≡ p.lo * k / scale_of s.fineness }
{
    wide::by::<Down>(p.lo, k, s.units())
}

// The lower end in 0.01 mm, rounded toward minus infinity.
#[tactic(auto, using(crate::proofs::Printing::shift_word))]
fn lower_shift(s: Scale, a: Signed) -> i128
    ensures { result ≡ floor_over (a.lo *ℤ pos 100) (scale_of s.fineness) }
{
    signed::floor_by(a.lo, 100, s.units())
}

// The upper end in 0.01 mm, rounded toward plus infinity.
#[tactic(auto, using(crate::proofs::Printing::shift_word))]
fn upper_shift(s: Scale, a: Signed) -> i128
    ensures { result ≡ ceil_over (a.hi *ℤ pos 100) (scale_of s.fineness) }
{
    signed::ceil_by(a.hi, 100, s.units())
}

impl WorkedSheet {
    // The lower end of the area in 0.01 mm², rounded down.
    #[tactic(auto, using(crate::proofs::Printing::area_is))]
    fn area(&self) -> u64
        ensures { result ≡ (figures self.now.scale.fineness self.now.sheet.sheet).area }
    {
        lower_part(self.scale, self.work.area, 100)
    }

    // The lower end of the area times fyb over the partial factor, in newtons, rounded down once.
    #[tactic(auto, using(crate::proofs::Printing::axial_steps))]
    fn axial(&self) -> u64
        ensures { result ≡ (figures self.now.scale.fineness self.now.sheet.sheet).axial }
    {
        let q = self.sheet.sheet;
        self.work.area.lo * q.fyb * 1000 / (q.gm0 * self.scale.units())
    }

    // The printed figures.
    #[tactic(auto, using(crate::proofs::Printing::shown))]
    pub fn figures(&self) -> Figures
        ensures { result ≡ figures_of (figures self.now.scale.fineness self.now.sheet.sheet) }
    {
        Figures {
            area: self.area(),
            axial: self.axial(),
            chi1: lower_part(self.scale, self.work.chi1, 1000),
            chi2: lower_part(self.scale, self.work.chi2, 1000),
            shiftlo: lower_shift(self.scale, self.work.shift),
            shifthi: upper_shift(self.scale, self.work.shift),
        }
    }

    // Whether the area's upper end is at most area + allow, the eleventh question.
    #[tactic(auto, using(crate::proofs::Printing::allowance_steps), unfolding(crate::specs::Figures::allowed))]
    pub fn within_allowance(&self) -> bool
        ensures { result ≡ allowed self.now.scale.fineness self.now.sheet.sheet }
    {
        self.work.area.hi * 100 <= (self.area() + self.sheet.sheet.allow) * self.scale.units()
    }
}
