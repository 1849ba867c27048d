// Numbers in decimal, with no leading zero and no minus before 0, or with so many digits.
ghost use Rattle.std.specs.Prelude.{◌≡◌, ◌+◌, ◌/◌, ◌%◌, ◌≤◌, ◌<◌, length};
ghost use Rattle.questions.specs.Buffers.{over};
ghost use Rattle.lines.specs.Decimal.{decimal, integer_text, fixed_text};

use crate::texts::Text;
use itoa::write_digits;

// How many digits n has.
#[tactic(auto, using(crate::proofs::DecimalLaws::widths))]
pub fn width(n: u64) -> usize
    ensures value { result ≡ length (decimal n) }
    ensures upper_bound { result ≤ 20 }
{
    if n < 10 {
        return 1;
    }
    if n < 100 {
        return 2;
    }
    if n < 1000 {
        return 3;
    }
    if n < 10_000 {
        return 4;
    }
    width(n / 10_000) + 4
}

impl Text for u64 {
    ghost bytes = { decimal };

    fn length(&self) -> usize {
        width(*self)
    }

    #[tactic(auto, using(crate::proofs::DecimalLaws::std_decimal), unfolding(questions::specs::Buffers::over))]
    fn put(&self, out: &mut [u8]) -> usize {
        let n = width(*self);
        write_digits(*self, out, n);
        n
    }
}

// 2^64 is ten of this, and 6.
const TENTH_OF_WORD: u64 = 1_844_674_407_370_955_161;

// n / 10 and n % 10, by words alone: a division of more than a word is a call from outside.
fn last_digit(n: u128) -> (u128, u64)
    ensures front { result.0 ≡ n / 10 }
    ensures last { result.1 ≡ n % 10 }
{
    let high = (n >> 64) as u64;
    let low = (n & u64::MAX as u128) as u64;
    let units = (high % 10) * 6 + low % 10;
    let behind = (high % 10) * TENTH_OF_WORD + low / 10 + units / 10;
    (((high / 10) as u128) << 64 | behind as u128, units % 10)
}

// How many digits n has, also past a word.
#[tactic(auto, using(crate::proofs::DecimalLaws::size_steps))]
fn size_width(n: u128) -> usize
    ensures value { result ≡ length (decimal n) }
    ensures upper_bound { result ≤ 39 }
{
    match u64::try_from(n) {
        Ok(n) => width(n),
        Err(_) => size_width(last_digit(n).0) + 1,
    }
}

// Writes n at the start of out, and answers its length: past a word digit by digit.
#[tactic(auto, using(crate::proofs::DecimalLaws::size_steps))]
fn put_size(n: u128, out: &mut [u8]) -> usize
    requires { length (decimal n) ≤ length out.old }
    ensures value { result ≡ length (decimal n) }
    ensures out_after { out.new ≡ over (decimal n) out.old }
{
    match u64::try_from(n) {
        Ok(n) => n.put(out),
        Err(_) => {
            let (front, last) = last_digit(n);
            let at = put_size(front, out);
            out[at] = b'0' + last as u8;
            at + 1
        }
    }
}

impl Text for i128 {
    ghost bytes = { integer_text };

    #[tactic(auto, unfolding(crate::specs::Decimal::integer_text))]
    fn length(&self) -> usize {
        let digits = size_width(self.unsigned_abs());
        if *self < 0 {
            return 1 + digits;
        }
        digits
    }

    #[tactic(auto, unfolding(crate::specs::Decimal::integer_text, questions::specs::Buffers::over))]
    fn put(&self, out: &mut [u8]) -> usize {
        let size = self.unsigned_abs();
        if *self < 0 {
            out[0] = b'-';
            return 1 + put_size(size, &mut out[1..]);
        }
        put_size(size, out)
    }
}

// The last so many digits of a number, zeros in front where it has fewer.
#[derive(Clone, Copy, Debug, PartialEq, Eq)]
pub struct Fixed {
    pub number: u64,
    pub digits: usize,
}

impl Text for Fixed {
    ghost bytes = { λ f. fixed_text f.digits f.number };

    #[tactic(auto, using(crate::proofs::DecimalLaws::fixed_length))]
    fn length(&self) -> usize {
        self.digits
    }

    #[tactic(auto, using(crate::proofs::DecimalLaws::fixed_length))]
    fn put(&self, out: &mut [u8]) -> usize {
        put_digits(out, self.number, self.digits);
        self.digits
    }
}

// The digits from the last to the first.
#[tactic(auto, using(crate::proofs::DecimalLaws::fixed_nothing))]
fn put_digits(out: &mut [u8], n: u64, digits: usize)
    requires { digits ≤ length out.old }
    ensures { out.new ≡ over (fixed_text digits n) out.old }
{
    let mut left = n;
    for at in (0..digits).rev() {
        out[at] = b'0' + (left % 10) as u8;
        left /= 10;
    }
}
