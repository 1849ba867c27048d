// Quotients of a product of two u64, which has 128 bits. All divisions are of 64 bits: for one of 128 the C
// compiler would call its library, and a processor would take far longer.
ghost use Rattle.std.specs.Prelude.{◌≡◌, ℕ, ◌+◌, ◌-◌, ◌*◌, ◌/◌, ◌%◌, ◌^◌, ◌<◌, ◌≤◌, min, max};
ghost use Rattle.pair.specs.Rounding.{ceil_div};
ghost use Rattle.pair.specs.RoundingLaws.{floor_div, RoundingLaws, down_laws, up_laws};

// A way to round a quotient to a whole number.
pub trait Rounding {
    // n / d, rounded
    ghost over: { ℕ → ℕ → ℕ };

    // what a remainder adds to the whole part
    ghost added: { ℕ → ℕ };

    ghost laws: { RoundingLaws over added };

    fn added(rest: u64) -> u64
        ensures { result ≡ added rest };
}

// To the whole number below.
pub struct Down;

// To the whole number above.
pub struct Up;

impl Rounding for Down {
    ghost over = { floor_div };

    ghost added = { λ rest. 0 };

    ghost laws = { down_laws };

    fn added(_rest: u64) -> u64 {
        0
    }
}

impl Rounding for Up {
    ghost over = { ceil_div };

    ghost added = { λ rest. min 1 rest };

    ghost laws = { up_laws };

    fn added(rest: u64) -> u64 {
        rest.min(1)
    }
}

// The upper 64 bits of a * b.
pub fn high(a: u64, b: u64) -> u64
    ensures { result ≡ a * b / 2 ^ 64 }
{
    ((a as u128 * b as u128) >> 64) as u64
}

// n / d rounded.
pub fn quotient<R: Rounding>(n: u64, d: u64) -> u64
    requires { 0 < d }
    ensures { result ≡ R.over n d }
{
    n / d + R::added(n % d)
}

// n / d or at most 2 more, from 32 bits of d and as many bits less of n.
#[tactic(auto, using(crate::proofs::LongDivision::estimates))]
fn estimate(n: u128, d: u64) -> u64
    requires { n < d * 2 ^ 32 }
    ensures enough { n / d ≤ result }
    ensures near { result ≤ n / d + 2 }
{
    let cut = 32 - d.leading_zeros().min(32);
    (n >> cut) as u64 / (d >> cut)
}

// An estimate of n / d, or one less where it is too large. Called twice: of a loop the C compiler would make a
// division of 128 bits again.
#[tactic(auto, using(crate::proofs::LongDivision::lowers))]
fn lowered(estimate: u64, n: u128, d: u64) -> u64
    requires some { 0 < d }
    requires enough { n / d ≤ estimate }
    ensures { result ≡ max (n / d) (estimate - 1) }
{
    estimate - (n < estimate as u128 * d as u128) as u64
}

// The next 32 bits of a quotient by d and what is left, where rest was left before and next are the next 32 bits
// of what is divided.
fn digit(rest: u64, next: u32, d: u64) -> (u64, u64)
    requires { rest < d }
    ensures whole { result.0 ≡ (rest * 2 ^ 32 + next) / d }
    ensures rest { result.1 ≡ (rest * 2 ^ 32 + next) % d }
{
    let n = rest as u128 * 0x1_0000_0000 + next as u128;
    let quotient = lowered(lowered(estimate(n, d), n, d), n, d);
    (quotient, (n - quotient as u128 * d as u128) as u64)
}

// n by d and what is left, in two digits of 32 bits: for the few quotients that need it.
#[tactic(auto, using(crate::proofs::LongDivision::digits))]
fn divided(n: u128, d: u64) -> (u64, u64)
    requires some { 0 < d }
    requires fits { n / d < 2 ^ 64 }
    ensures whole { result.0 ≡ n / d }
    ensures rest { result.1 ≡ n % d }
{
    let (upper, rest) = digit((n >> 64) as u64, ((n >> 32) % 0x1_0000_0000) as u32, d);
    let (lower, rest) = digit(rest, (n % 0x1_0000_0000) as u32, d);
    (upper * 0x1_0000_0000 + lower, rest)
}

// x * b by d and what is left, for x below d.
fn reduced(x: u64, b: u64, d: u64) -> (u64, u64)
    requires { x < d }
    ensures whole { result.0 ≡ x * b / d }
    ensures rest { result.1 ≡ x * b % d }
{
    let product = x as u128 * b as u128;
    if product <= u64::MAX as u128 {
        let n = product as u64;
        return (n / d, n % d);
    }
    divided(product, d)
}

// a * b by d and what is left. Where a * b passes a word, a is taken apart as a / d * d + a % d.
#[tactic(auto, using(crate::proofs::Quotients::whole_apart, crate::proofs::Quotients::rest_apart))]
pub fn product_by(a: u64, b: u64, d: u64) -> (u64, u64)
    requires some { 0 < d }
    requires fits { a * b / d < 2 ^ 64 }
    ensures whole { result.0 ≡ a * b / d }
    ensures rest { result.1 ≡ a * b % d }
{
    let product = a as u128 * b as u128;
    if product <= u64::MAX as u128 {
        let n = product as u64;
        return (n / d, n % d);
    }
    let (quotient, rest) = reduced(a % d, b, d);
    (a / d * b + quotient, rest)
}

// a * b / d rounded.
pub fn by<R: Rounding>(a: u64, b: u64, d: u64) -> u64
    requires some { 0 < d }
    requires fits { R.over (a * b) d < 2 ^ 64 }
    ensures { result ≡ R.over (a * b) d }
{
    let (quotient, rest) = product_by(a, b, d);
    quotient + R::added(rest)
}

// a * b / s rounded, for a scale s. The scales of sheets are written out: by a constant the processor divides
// in less time. Called, and not put in place, so that `Pair::times` can be.
#[inline(never)]
pub fn at_scale<R: Rounding>(a: u64, b: u64, s: u64) -> u64
    requires some { 0 < s }
    requires fits { R.over (a * b) s < 2 ^ 64 }
    ensures { result ≡ R.over (a * b) s }
{
    match s {
        1_000_000 => by::<R>(a, b, 1_000_000),
        10_000_000 => by::<R>(a, b, 10_000_000),
        _ => by::<R>(a, b, s),
    }
}
