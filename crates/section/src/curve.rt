// How a width's part that counts falls with its slenderness. (docs/WORKING.md, 6 and 7.)
ghost use Rattle.std.specs.Prelude.{◌≤◌, ◌*◌};

// Up to which slenderness a width counts in full, and what is taken off past it, in millionths.
#[derive(Clone, Copy, Debug, PartialEq, Eq)]
pub struct Curve {
    pub full: u64,
    pub less: u64,
    ghost low: { 500000 ≤ full },
    ghost high: { full ≤ 1000000 },
    ghost twice: { 2 * less ≤ full },
}
