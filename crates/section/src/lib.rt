// The working of a section. (docs/WORKING.md.)
#![tactic(auto)]

pub mod coefficients;
mod curve;
pub mod factors;
pub mod moments;
pub mod rounds;
mod scale;
pub mod sections;
mod sheets;
mod sound;
pub mod stiffeners;
pub mod widths;

pub use curve::Curve;
use pair::signed::Signed;
use pair::{Both, Pair};
pub use scale::Scale;
pub use sound::{SoundSheet, WorkedSheet};

// The nominal thickness, with its coating, and the core thickness, in 0.01 mm. Neither is taken
// for the other.
#[derive(Clone, Copy, Debug, PartialEq, Eq)]
pub struct Nominal(pub u64);

#[derive(Clone, Copy, Debug, PartialEq, Eq)]
pub struct Core(pub u64);

// How many numbers a sheet has: one for each of its lines.
pub const SHEET_LINES: usize = 13;

// The numbers of a sheet, lengths in 0.01 mm.
#[derive(Clone, Copy, Debug, PartialEq, Eq)]
pub struct Sheet {
    pub form: u64,
    pub h: u64,
    pub b1: u64,
    pub b2: u64,
    pub c: u64,
    pub r: u64,
    pub tnom: Nominal,
    pub t: Core,
    pub fyb: u64,
    pub gm0: u64,
    pub rounds: u64,
    pub allow: u64,
    pub fine: u64,
}

// A flange with its lip: its mid-line width, and u² of flange and lip at full thickness.
#[derive(Clone, Copy, Debug, PartialEq, Eq)]
pub struct Flange {
    pub bp: Pair,
    pub plane: Pair,
    pub lip: Pair,
}

// The core thickness, and the yield strength in N/mm².
#[derive(Clone, Copy, Debug, PartialEq, Eq)]
pub struct Steel {
    pub t: Core,
    pub fyb: u64,
}

// What both flanges of a section have in common: the steel, and the mid-line lengths of web and lips.
#[derive(Clone, Copy, Debug, PartialEq, Eq)]
pub struct Common {
    pub steel: Steel,
    pub hp: Pair,
    pub cp: Pair,
}

// What every round of a section works with.
#[derive(Clone, Copy, Debug, PartialEq, Eq)]
pub struct Member {
    pub common: Common,
    pub flanges: Both<Flange>,
}

// What counts of a flange at its stiffener: be2, c_eff, and a, their sum.
#[derive(Clone, Copy, Debug, PartialEq, Eq)]
pub struct Stiffener {
    pub be2: Pair,
    pub c: Pair,
    pub a: Pair,
}

// One flange's part of a round: its stiffener and its thickness factor.
#[derive(Clone, Copy, Debug, PartialEq, Eq)]
pub struct RefinedFlange {
    pub stiffener: Stiffener,
    pub chi: Pair,
}

// What counts of a flange: be1, its stiffener and its thickness factor.
#[derive(Clone, Copy, Debug, PartialEq, Eq)]
pub struct EffectiveFlange {
    pub be1: Pair,
    pub stiffener: Stiffener,
    pub chi: Pair,
}

// The effective parts of a section: those of both flanges, and the web's, p at flange 1 and m at
// flange 2.
#[derive(Clone, Copy, Debug, PartialEq, Eq)]
pub struct EffectiveParts {
    pub flanges: Both<EffectiveFlange>,
    pub p: Pair,
    pub m: Pair,
}

// The mid-line lengths of a sheet.
#[derive(Clone, Copy, Debug, PartialEq, Eq)]
pub struct MidLines {
    pub hp: Pair,
    pub cp: Pair,
    pub bp: Both<Pair>,
}

// What a working gives: the effective area, both thickness factors, the distance of the neutral
// axis from flange 1 and that of the gross section, and the shift.
#[derive(Clone, Copy, Debug, PartialEq, Eq)]
pub struct Work {
    pub area: Pair,
    pub chi1: Pair,
    pub chi2: Pair,
    pub z: Signed,
    pub gross: Signed,
    pub shift: Signed,
}

// The printed figures: area in 0.01 mm², axial in newtons, both factors in thousandths, the ends
// of the shift in 0.01 mm.
#[derive(Clone, Copy, Debug, PartialEq, Eq)]
pub struct Figures {
    pub area: u64,
    pub axial: u64,
    pub chi1: u64,
    pub chi2: u64,
    pub shiftlo: i128,
    pub shifthi: i128,
}
