// Cases of wide quotients and of whole roots.
use crate::outcome::Outcome;
use pair::roots::{Cube, RootScale, Square};
use pair::wide::{Down, Up};
use pair::{Pair, wide};

#[tactic(auto, using(crate::proofs::Tested::quotients))]
fn floor_of(a: u64, b: u64, d: u64) -> Option<Outcome> {
    pair_checked::floor_fits(a, b, d).then(|| Outcome::Whole(wide::by::<Down>(a, b, d)))
}

#[tactic(auto, using(crate::proofs::Tested::quotients))]
fn ceil_of(a: u64, b: u64, d: u64) -> Option<Outcome> {
    pair_checked::ceil_fits(a, b, d).then(|| Outcome::Whole(wide::by::<Up>(a, b, d)))
}

fn square_of(n: u64) -> Outcome {
    let t = Square::of(n);
    Outcome::Rooted(t.root, t.rest)
}

#[tactic(auto, using(crate::proofs::Tested::roots))]
fn scaled_square(v: u64, s: u64) -> Option<Outcome> {
    if !pair_checked::root_fits(Pair::exact(v), s) {
        return None;
    }
    let t = Square::scaled(v, RootScale { units: s });
    Some(Outcome::Rooted(t.root, t.rest))
}

fn cube_of(n: u64) -> Outcome {
    let t = Cube::of(n);
    Outcome::Rooted(t.root, t.rest)
}

// The first three operands.
fn three(line: &[u8]) -> [u64; 3] {
    [
        cases::number(line, 1),
        cases::number(line, 2),
        cases::number(line, 3),
    ]
}

// The operation that the line's letter names, and what it gives, where it applies. Only its own operands are read.
pub fn given(line: &[u8]) -> Option<(&'static str, Option<Outcome>)> {
    match cases::letter(line)? {
        b'h' => {
            let high = wide::high(cases::number(line, 1), cases::number(line, 2));
            Some(("high", Some(Outcome::Whole(high))))
        }
        b'f' => {
            let [a, b, d] = three(line);
            Some(("floor_of", floor_of(a, b, d)))
        }
        b'g' => {
            let [a, b, d] = three(line);
            Some(("ceil_of", ceil_of(a, b, d)))
        }
        b'q' => Some(("square_of", Some(square_of(cases::number(line, 1))))),
        b's' => {
            let square = scaled_square(cases::number(line, 1), cases::number(line, 2));
            Some(("scaled_square", square))
        }
        b'k' => Some(("cube_of", Some(cube_of(cases::number(line, 1))))),
        _ => None,
    }
}
