// The operations of crate pair as C functions: for random tests from outside (tests/outside) and for
// timing them beside plain C (tests/bench). Each asks what the operation itself asks.
#![tactic(auto)]

pub mod signed;

ghost use Rattle.std.specs.Prelude.{◌≡◌, true, ◌*◌, ◌/◌, ◌^◌, ◌<◌};
ghost use Rattle.pair.specs.Rounding.{ceil_div};
ghost use Rattle.pair.specs.Remainders.{Split, SquareRooted, CubeRooted};
ghost use Rattle.pair.specs.Roots.{square_taken, cube_taken};
ghost use Rattle.pair.specs.Pairs.{◌to◌, exact, ratio, plus, minus, times, over, root, cube_root, smaller};
ghost use Rattle.pair.specs.Fits.{ratio_fits, plus_fits, minus_fits, times_fits, over_fits, times_ratio_fits, over_ratio_fits, root_fits, cube_root_fits};

use pair::roots::{Cube, Square};
use pair::wide::{Down, Up};
use pair::{Both, Pair, wide};

// A quotient or a root with what is left over.
#[repr(C)]
#[derive(Clone, Copy, Debug, PartialEq, Eq)]
pub struct Part {
    pub whole: u64,
    pub rest: u64,
}

impl From<(u64, u64)> for Part {
    ghost from_gives = { λ t p. p ≡ record { whole = t.0; rest = t.1 } };

    fn from((whole, rest): (u64, u64)) -> Part {
        Part { whole, rest }
    }
}

impl From<Square> for Part {
    ghost from_gives = { λ t p. SquareRooted (square_taken t) p.whole p.rest };

    fn from(t: Square) -> Part {
        Part::from((t.root, t.rest))
    }
}

impl From<Cube> for Part {
    ghost from_gives = { λ t p. CubeRooted (cube_taken t) p.whole (3 * (p.whole * p.whole)) p.rest };

    fn from(t: Cube) -> Part {
        Part::from((t.root, t.rest))
    }
}

// Two pairs.
#[repr(C)]
#[derive(Clone, Copy, Debug, PartialEq, Eq)]
pub struct TwoPairs {
    pub one: Pair,
    pub two: Pair,
}

impl From<Both<Pair>> for TwoPairs {
    ghost from_gives = { λ b t. t ≡ record { one = b.one; two = b.two } };

    fn from(both: Both<Pair>) -> TwoPairs {
        TwoPairs {
            one: both.one,
            two: both.two,
        }
    }
}

#[unsafe(no_mangle)]
pub extern "C" fn pair_high(a: u64, b: u64) -> u64
    ensures { result ≡ a * b / 2 ^ 64 }
{
    wide::high(a, b)
}

#[unsafe(no_mangle)]
pub extern "C" fn pair_product_by(a: u64, b: u64, d: u64) -> Part
    requires some { 0 < d }
    requires fits { a * b / d < 2 ^ 64 }
    ensures { Split (a * b) d result.whole result.rest }
{
    Part::from(wide::product_by(a, b, d))
}

#[unsafe(no_mangle)]
pub extern "C" fn pair_floor_of(a: u64, b: u64, d: u64) -> u64
    requires some { 0 < d }
    requires fits { a * b / d < 2 ^ 64 }
    ensures { result ≡ a * b / d }
{
    wide::by::<Down>(a, b, d)
}

#[unsafe(no_mangle)]
pub extern "C" fn pair_ceil_of(a: u64, b: u64, d: u64) -> u64
    requires some { 0 < d }
    requires fits { ceil_div (a * b) d < 2 ^ 64 }
    ensures { result ≡ ceil_div (a * b) d }
{
    wide::by::<Up>(a, b, d)
}

#[unsafe(no_mangle)]
pub extern "C" fn pair_square_of(n: u64) -> Part
    ensures { SquareRooted n result.whole result.rest }
{
    Part::from(Square::of(n))
}

#[unsafe(no_mangle)]
pub extern "C" fn pair_cube_of(n: u64) -> Part
    ensures { CubeRooted n result.whole (3 * (result.whole * result.whole)) result.rest }
{
    Part::from(Cube::of(n))
}

#[unsafe(no_mangle)]
pub extern "C" fn pair_exact(v: u64) -> Pair
    ensures { result ≡ exact v }
{
    Pair::exact(v)
}

#[unsafe(no_mangle)]
pub extern "C" fn pair_ratio(a: u64, b: u64, s: u64) -> Pair
    requires { ratio_fits s a b ≡ true }
    ensures { result ≡ ratio s a b }
{
    Pair::ratio(a, b, s)
}

#[unsafe(no_mangle)]
pub extern "C" fn pair_plus(lo: u64, hi: u64, least: u64, most: u64) -> Pair
    requires { plus_fits (lo to hi) (least to most) ≡ true }
    ensures { result ≡ plus (lo to hi) (least to most) }
{
    let p = Pair { lo, hi };
    let q = Pair {
        lo: least,
        hi: most,
    };
    p.plus(q)
}

#[unsafe(no_mangle)]
pub extern "C" fn pair_minus(lo: u64, hi: u64, least: u64, most: u64) -> Pair
    requires { minus_fits (lo to hi) (least to most) ≡ true }
    ensures { result ≡ minus (lo to hi) (least to most) }
{
    let p = Pair { lo, hi };
    let q = Pair {
        lo: least,
        hi: most,
    };
    p.minus(q)
}

#[unsafe(no_mangle)]
pub extern "C" fn pair_times(lo: u64, hi: u64, least: u64, most: u64, s: u64) -> Pair
    requires { times_fits s (lo to hi) (least to most) ≡ true }
    ensures { result ≡ times s (lo to hi) (least to most) }
{
    let p = Pair { lo, hi };
    let q = Pair {
        lo: least,
        hi: most,
    };
    p.times(q, s)
}

#[unsafe(no_mangle)]
pub extern "C" fn pair_over(lo: u64, hi: u64, least: u64, most: u64, s: u64) -> Pair
    requires { over_fits s (lo to hi) (least to most) ≡ true }
    ensures { result ≡ over s (lo to hi) (least to most) }
{
    let p = Pair { lo, hi };
    let q = Pair {
        lo: least,
        hi: most,
    };
    p.over(q, s)
}

#[unsafe(no_mangle)]
pub extern "C" fn pair_times_ratio(lo: u64, hi: u64, a: u64, b: u64, s: u64) -> Pair
    requires { times_ratio_fits s (lo to hi) a b ≡ true }
    ensures { result ≡ times s (lo to hi) (ratio s a b) }
{
    let p = Pair { lo, hi };
    p.times_ratio(a, b, s)
}

#[unsafe(no_mangle)]
pub extern "C" fn pair_over_ratio(lo: u64, hi: u64, a: u64, b: u64, s: u64) -> Pair
    requires { over_ratio_fits s (lo to hi) a b ≡ true }
    ensures { result ≡ over s (lo to hi) (ratio s a b) }
{
    let p = Pair { lo, hi };
    p.over_ratio(a, b, s)
}

#[unsafe(no_mangle)]
pub extern "C" fn pair_root(lo: u64, hi: u64, s: u64) -> Pair
    requires { root_fits s (lo to hi) ≡ true }
    ensures { result ≡ root s (lo to hi) }
{
    let p = Pair { lo, hi };
    p.root(s)
}

#[unsafe(no_mangle)]
pub extern "C" fn pair_roots(lo: u64, hi: u64, least: u64, most: u64, s: u64) -> TwoPairs
    requires one { root_fits s (lo to hi) ≡ true }
    requires two { root_fits s (least to most) ≡ true }
    ensures one { result.one ≡ root s (lo to hi) }
    ensures two { result.two ≡ root s (least to most) }
{
    let p = Pair { lo, hi };
    let q = Pair {
        lo: least,
        hi: most,
    };
    TwoPairs::from(Both { one: p, two: q }.map(|x| x.root(s)))
}

#[unsafe(no_mangle)]
pub extern "C" fn pair_cube_root(lo: u64, hi: u64, s: u64) -> Pair
    requires { cube_root_fits s (lo to hi) ≡ true }
    ensures { result ≡ cube_root s (lo to hi) }
{
    let p = Pair { lo, hi };
    p.cube_root(s)
}

#[unsafe(no_mangle)]
pub extern "C" fn pair_smaller(lo: u64, hi: u64, least: u64, most: u64) -> Pair
    ensures { result ≡ smaller (lo to hi) (least to most) }
{
    let p = Pair { lo, hi };
    let q = Pair {
        lo: least,
        hi: most,
    };
    p.smaller(q)
}
