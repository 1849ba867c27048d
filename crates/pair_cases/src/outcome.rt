// What an operation gives, and how it is printed.
use pair::Pair;
use std::fmt;
use std::fmt::{Display, Formatter};

#[derive(Clone, Copy, Debug, PartialEq, Eq)]
pub enum Outcome {
    Whole(u64),
    Rooted(u64, u64),
    Ends(Pair),
    TwoEnds(Pair, Pair),
    Integer(i128),
    SignedEnds(i128, i128),
}

impl Display for Outcome {
    fn fmt<W: fmt::Write>(&self, f: &mut Formatter<W>) -> fmt::Result {
        match self {
            Outcome::Whole(n) => write!(f, "{n}"),
            Outcome::Rooted(root, rest) => write!(f, "{root} {rest}"),
            Outcome::Ends(p) => write!(f, "{} {}", p.lo, p.hi),
            Outcome::TwoEnds(p, q) => write!(f, "{} {} {} {}", p.lo, p.hi, q.lo, q.hi),
            Outcome::Integer(z) => write!(f, "{z}"),
            Outcome::SignedEnds(lo, hi) => write!(f, "{lo} {hi}"),
        }
    }
}
