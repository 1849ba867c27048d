// The scale of a working. (docs/WORKING.md, 3; W-204.)
ghost use Rattle.std.specs.Prelude.{◌≡◌, ◌<◌, ◌≤◌};
ghost use Rattle.section.specs.Working.{scale_of, whole};

use pair::Pair;

// Units in 1, by their fineness: how many times 1,000,000 they are, from 1 to 10.
#[derive(Clone, Copy, Debug, PartialEq, Eq)]
pub struct Scale {
    pub fineness: u64,
    ghost some: { 0 < fineness },
    ghost most: { fineness ≤ 10 },
}

impl Scale {
    // How many units are in 1.
    pub fn units(self) -> u64
        ensures { result ≡ scale_of self.fineness }
    {
        self.fineness * 1_000_000
    }

    // The exact value 1.
    #[tactic(auto, using(crate::proofs::Ends::one_exact))]
    pub fn one(self) -> Pair
        ensures { result ≡ whole self.fineness 1 }
    {
        Pair::exact(self.units())
    }
}
