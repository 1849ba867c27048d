// The operations on integers and signed pairs as C functions, and the structs that cross C. An operand may be a
// zero below zero; what is returned is the one form that `plain` and `plain_pair` name, in which zero is not below zero.
ghost use Rattle.std.specs.Prelude.{◌≡◌, true, ◌+◌, ◌*◌, ◌^◌, ◌<◌, pos, neg_ℤ, ◌+ℤ◌, ◌-ℤ◌, ◌*ℤ◌, unsigned_abs};
ghost use Rattle.pair.specs.Rounding.{ceil_div};
ghost use Rattle.pair.specs.Pairs.{◌to◌};
ghost use Rattle.pair.specs.Integers.{leb_ℤ, least, greatest, floor_over, ceil_over};
ghost use Rattle.pair.specs.SignedPairs.{signed, difference, signed_plus, signed_minus, signed_times, signed_over, coarser};
ghost use Rattle.pair.specs.Fits.{signed_plus_fits, signed_times_fits, signed_over_fits};
ghost use Rattle.pair_c.specs.Forms.{integer, plain, meaning, plain_pair};

use pair::Pair;
use pair::signed::{self, ceil_by, floor_by};

// A size, and whether it lies below zero.
#[repr(C)]
#[derive(Clone, Copy, Debug, PartialEq, Eq)]
pub struct Integer {
    pub below: bool,
    pub size: u64,
}

// A lower and an upper end, in units of 1/s.
#[repr(C)]
#[derive(Clone, Copy, Debug, PartialEq, Eq)]
pub struct Signed {
    pub lo: Integer,
    pub hi: Integer,
}

impl From<Integer> for i128 {
    ghost from_gives = { λ z x. (x ≡ integer z) × (unsigned_abs x ≡ z.size) };

    #[tactic(auto, using(crate::proofs::Forms::integers))]
    fn from(z: Integer) -> i128 {
        let size = z.size as i128;
        if z.below { -size } else { size }
    }
}

// The one form of an integer.
#[tactic(auto, using(crate::proofs::Forms::integers))]
fn plain(x: i128) -> Integer
    requires { unsigned_abs x < 2 ^ 64 }
    ensures { result ≡ plain x }
{
    Integer {
        below: x < 0,
        size: x.unsigned_abs() as u64,
    }
}

impl From<Signed> for signed::Signed {
    ghost from_gives = { λ a p. p ≡ meaning a };

    #[tactic(auto, using(crate::proofs::Forms::integers), unfolding(crate::specs::Forms::meaning))]
    fn from(a: Signed) -> signed::Signed {
        signed::Signed {
            lo: i128::from(a.lo),
            hi: i128::from(a.hi),
        }
    }
}

impl From<signed::Signed> for Signed {
    ghost from_gives = { λ p a. a ≡ plain_pair p };

    #[tactic(auto, using(crate::proofs::Forms::integers), unfolding(crate::specs::Forms::plain_pair))]
    fn from(p: signed::Signed) -> Signed {
        Signed {
            lo: plain(p.lo),
            hi: plain(p.hi),
        }
    }
}

#[unsafe(no_mangle)]
pub extern "C" fn pair_difference(a: u64, b: u64) -> Integer
    ensures { result ≡ plain (pos a -ℤ pos b) }
{
    plain(a as i128 - b as i128)
}

#[unsafe(no_mangle)]
#[tactic(auto, using(crate::proofs::Forms::integers))]
pub extern "C" fn pair_negated(a: Integer) -> Integer
    ensures { result ≡ plain (neg_ℤ (integer a)) }
{
    plain(-i128::from(a))
}

#[unsafe(no_mangle)]
#[tactic(auto, using(crate::proofs::Forms::integers))]
pub extern "C" fn pair_sum(a: Integer, b: Integer) -> Integer
    requires { a.size + b.size < 2 ^ 64 }
    ensures { result ≡ plain (integer a +ℤ integer b) }
{
    plain(i128::from(a) + i128::from(b))
}

#[unsafe(no_mangle)]
#[tactic(auto, using(crate::proofs::Forms::integers))]
pub extern "C" fn pair_at_most(a: Integer, b: Integer) -> bool
    ensures { result ≡ leb_ℤ (integer a) (integer b) }
{
    i128::from(a) <= i128::from(b)
}

#[unsafe(no_mangle)]
#[tactic(auto, using(crate::proofs::Forms::integers))]
pub extern "C" fn pair_least(a: Integer, b: Integer) -> Integer
    ensures { result ≡ plain (least (integer a) (integer b)) }
{
    plain(i128::from(a).min(i128::from(b)))
}

#[unsafe(no_mangle)]
#[tactic(auto, using(crate::proofs::Forms::integers))]
pub extern "C" fn pair_greatest(a: Integer, b: Integer) -> Integer
    ensures { result ≡ plain (greatest (integer a) (integer b)) }
{
    plain(i128::from(a).max(i128::from(b)))
}

#[unsafe(no_mangle)]
#[tactic(auto, using(crate::proofs::Forms::integers))]
pub extern "C" fn pair_floor_by(a: Integer, x: u64, d: u64) -> Integer
    requires { (0 < d) × (ceil_div (a.size * x) d < 2 ^ 64) }
    ensures { result ≡ plain (floor_over (integer a *ℤ pos x) d) }
{
    plain(floor_by(i128::from(a), x as i128, d))
}

#[unsafe(no_mangle)]
#[tactic(auto, using(crate::proofs::Forms::integers))]
pub extern "C" fn pair_ceil_by(a: Integer, x: u64, d: u64) -> Integer
    requires { (0 < d) × (ceil_div (a.size * x) d < 2 ^ 64) }
    ensures { result ≡ plain (ceil_over (integer a *ℤ pos x) d) }
{
    plain(ceil_by(i128::from(a), x as i128, d))
}

#[unsafe(no_mangle)]
#[tactic(auto, using(crate::proofs::Forms::integers))]
pub extern "C" fn pair_floor_product(a: Integer, b: Integer, d: u64) -> Integer
    requires { (0 < d) × (ceil_div (a.size * b.size) d < 2 ^ 64) }
    ensures { result ≡ plain (floor_over (integer a *ℤ integer b) d) }
{
    plain(floor_by(i128::from(a), i128::from(b), d))
}

#[unsafe(no_mangle)]
#[tactic(auto, using(crate::proofs::Forms::integers))]
pub extern "C" fn pair_ceil_product(a: Integer, b: Integer, d: u64) -> Integer
    requires { (0 < d) × (ceil_div (a.size * b.size) d < 2 ^ 64) }
    ensures { result ≡ plain (ceil_over (integer a *ℤ integer b) d) }
{
    plain(ceil_by(i128::from(a), i128::from(b), d))
}

#[unsafe(no_mangle)]
pub extern "C" fn pair_signed(lo: u64, hi: u64) -> Signed
    ensures { result ≡ plain_pair (signed (lo to hi)) }
{
    let p = Pair { lo, hi };
    Signed::from(signed::Signed::from(p))
}

#[unsafe(no_mangle)]
pub extern "C" fn pair_between(lo: u64, hi: u64, least: u64, most: u64) -> Signed
    ensures { result ≡ plain_pair (difference (lo to hi) (least to most)) }
{
    let p = Pair { lo, hi };
    let q = Pair {
        lo: least,
        hi: most,
    };
    Signed::from(signed::Signed::between(p, q))
}

#[unsafe(no_mangle)]
pub extern "C" fn pair_signed_plus(a: Signed, b: Signed) -> Signed
    requires { signed_plus_fits (meaning a) (meaning b) ≡ true }
    ensures { result ≡ plain_pair (signed_plus (meaning a) (meaning b)) }
{
    Signed::from(signed::Signed::from(a).plus(signed::Signed::from(b)))
}

#[unsafe(no_mangle)]
pub extern "C" fn pair_signed_minus(a: Signed, b: Signed) -> Signed
    requires { signed_plus_fits (meaning a) (meaning b) ≡ true }
    ensures { result ≡ plain_pair (signed_minus (meaning a) (meaning b)) }
{
    Signed::from(signed::Signed::from(a).minus(signed::Signed::from(b)))
}

#[unsafe(no_mangle)]
pub extern "C" fn pair_signed_times(a: Signed, lo: u64, hi: u64, s: u64) -> Signed
    requires { signed_times_fits s (meaning a) (signed (lo to hi)) ≡ true }
    ensures { result ≡ plain_pair (signed_times s (meaning a) (signed (lo to hi))) }
{
    let q = Pair { lo, hi };
    Signed::from(signed::Signed::from(a).times(q, s))
}

#[unsafe(no_mangle)]
pub extern "C" fn pair_times_signed(a: Signed, b: Signed, s: u64) -> Signed
    requires { signed_times_fits s (meaning a) (meaning b) ≡ true }
    ensures { result ≡ plain_pair (signed_times s (meaning a) (meaning b)) }
{
    Signed::from(signed::Signed::from(a).times_signed(signed::Signed::from(b), s))
}

#[unsafe(no_mangle)]
pub extern "C" fn pair_signed_over(a: Signed, lo: u64, hi: u64, s: u64) -> Signed
    requires { signed_over_fits s (meaning a) (lo to hi) ≡ true }
    ensures { result ≡ plain_pair (signed_over s (meaning a) (lo to hi)) }
{
    let q = Pair { lo, hi };
    Signed::from(signed::Signed::from(a).over(q, s))
}

#[unsafe(no_mangle)]
pub extern "C" fn pair_coarser(a: Signed, k: u64) -> Signed
    requires { 0 < k }
    ensures { result ≡ plain_pair (coarser k (meaning a)) }
{
    Signed::from(signed::Signed::from(a).coarser(k))
}
