// Reading lines. A reader answers a value and the bytes behind its line, or none where the line is bad.
ghost use Rattle.std.specs.Prelude.{◌≡◌, suc, ◌-◌, ◌*◌, ◌^◌, ◌≤◌, ◌<◌, length, drop, pos, map, IfSome};
ghost use Rattle.std.specs.Option.{is_some};
ghost use Rattle.lines.specs.Ascii.{digit0};
ghost use Rattle.lines.specs.Decimal.{most_fixed};
ghost use Rattle.lines.specs.Fields.{field};
ghost use Rattle.lines.specs.Texts.{most_digits};
ghost use Rattle.lines.specs.Reading.{first, rest, is_digit, ended, read_digits, read_fixed, read_number, read_signed};
ghost use Rattle.lines.specs.Reading.{read_letter, read_value, read_line, read_lines};
ghost use Rattle.lines.specs.Forms.{found, found_number, reading, padded};

use crate::keys::{Key, Kind, NEWLINE};

// A number has at most ten digits: so many may follow the first.
const MORE_DIGITS: usize = 9;

// The number n, whose newline is to come first.
#[tactic(auto, unfolding(crate::specs::Reading::ended))]
fn ended(s: &[u8], n: u64) -> Option<(u64, &[u8])>
    ensures { found_number result ≡ ended (pos n) s.now }
{
    s.strip_prefix(&[NEWLINE]).map(|rest| (n, rest))
}

// The digit that comes first, as a number.
fn digit(s: &[u8]) -> Option<(u64, &[u8])>
    ensures variant { is_some result ≡ is_digit (first s.now) }
    ensures upper_bound { IfSome result (λ p. p.0 ≤ 9) }
    ensures parts { IfSome result (λ p. (p.0 ≡ first s.now - digit0) × (p.1.now ≡ rest s.now)) }
{
    let (first, rest) = s.split_first()?;
    first
        .is_ascii_digit()
        .then(|| ((*first - b'0') as u64, rest))
}

// The number that goes on behind digits whose value is `begun`, by at most `most` digits.
#[tactic(auto, using(crate::proofs::ReadSteps::next_digit))]
fn digits(s: &[u8], begun: u64, most: usize) -> Option<(u64, &[u8])>
    requires { suc begun * 10 ^ most ≤ 10 ^ most_digits }
    ensures { found_number result ≡ read_digits most begun s.now }
{
    let mut n = begun;
    let mut rest = s;
    for _ in 0..most {
        let Some((next, behind)) = digit(rest) else {
            break;
        };
        n = n * 10 + next;
        rest = behind;
    }
    ended(rest, n)
}

// The number of exactly so many digits, and a newline behind them.
#[tactic(auto, using(crate::proofs::ReadSteps::next_of_fixed))]
pub fn fixed(s: &[u8], digits: usize) -> Option<(u64, &[u8])>
    requires { digits ≤ most_fixed }
    ensures { found_number result ≡ read_fixed digits 0 s.now }
{
    let mut n = 0;
    let mut rest = s;
    for _ in 0..digits {
        let (next, behind) = digit(rest)?;
        n = n * 10 + next;
        rest = behind;
    }
    ended(rest, n)
}

// The same at a place of s, behind whose end no number stands.
pub fn fixed_at(s: &[u8], at: usize, digits: usize) -> Option<(u64, &[u8])>
    requires { digits ≤ most_fixed }
    ensures { found_number result ≡ read_fixed digits 0 (drop at s.now) }
{
    fixed(s.get(at..).unwrap_or(&[]), digits)
}

#[tactic(auto, unfolding(crate::specs::Reading::read_number))]
fn number(s: &[u8]) -> Option<(u64, &[u8])>
    ensures { found_number result ≡ read_number s.now }
{
    let (first, rest) = digit(s)?;
    if first == 0 {
        return ended(rest, 0);
    }
    digits(rest, first, MORE_DIGITS)
}

#[tactic(auto, unfolding(crate::specs::Reading::read_signed, crate::specs::Reading::negated))]
fn signed(s: &[u8]) -> Option<(i128, &[u8])>
    ensures { found result ≡ read_signed s.now }
{
    match s.strip_prefix(b"-") {
        None => number(s).map(|(n, rest)| (n as i128, rest)),
        Some(behind) => number(behind)
            .filter(|(n, _)| *n != 0)
            .map(|(n, rest)| (-(n as i128), rest)),
    }
}

#[tactic(auto, using(crate::proofs::ReadSteps::letter_none), unfolding(crate::specs::Reading::read_letter))]
fn letter(s: &[u8], zero: u8, one: u8) -> Option<(u64, &[u8])>
    ensures { found_number result ≡ read_letter zero one s.now }
{
    let (first, rest) = s.split_first()?;
    if *first == zero {
        ended(rest, 0)
    } else if *first == one {
        ended(rest, 1)
    } else {
        None
    }
}

impl Kind {
    // The value of this kind, whose newline stands behind it.
    #[tactic(auto, unfolding(crate::specs::Reading::read_value))]
    fn read(self, s: &[u8]) -> Option<(i128, &[u8])>
        ensures { found result ≡ read_value self s.now }
    {
        let (n, rest) = match self {
            Kind::Letter(zero, one) => letter(s, zero, one)?,
            Kind::Number => number(s)?,
            Kind::Signed => return signed(s),
        };
        Some((n as i128, rest))
    }
}

impl Key<'_> {
    // The line with this key, which is to come first.
    #[tactic(auto, using(crate::proofs::ReadSteps::begins_is), unfolding(crate::specs::Reading::read_line))]
    pub fn read<'a>(&self, s: &'a [u8]) -> Option<(i128, &'a [u8])>
        ensures { found result ≡ read_line (field self.now) s.now }
    {
        self.kind.read(s.strip_prefix(self.text)?)
    }
}

// The first bad line, counted from 1.
#[derive(Clone, Copy, Debug, PartialEq, Eq)]
pub struct BadLine(pub usize);

// The values of the lines with these keys, behind which nothing may stand; zeros stand behind the values.
#[tactic(auto, using(crate::proofs::ReadLoop::first_read))]
pub fn first_lines<const N: usize>(s: &[u8], keys: &[Key]) -> Result<[i128; N], BadLine>
    requires { length keys.now ≤ N }
    ensures { result ≡ padded N (read_lines (map field keys.now) s.now) }
{
    let mut values = [0; N];
    let mut rest = s;
    for (i, key) in keys.iter().enumerate() {
        (values[i], rest) = key.read(rest).ok_or(BadLine(i + 1))?;
    }
    if rest.is_empty() {
        Ok(values)
    } else {
        Err(BadLine(keys.len() + 1))
    }
}

// The same of as many keys as there are values.
#[tactic(auto, using(crate::proofs::ReadLoop::all_read))]
pub fn table<const N: usize>(s: &[u8], keys: &[Key]) -> Result<[i128; N], BadLine>
    requires { length keys.now ≡ N }
    ensures { reading result ≡ read_lines (map field keys.now) s.now }
{
    first_lines(s, keys)
}
