// Whole roots, each held with what it leaves: one bit of the root after the other, but for a square root
// whose guess is right.
ghost use Rattle.std.specs.Prelude.{◌≡◌, ◌+◌, ◌*◌, ◌%◌, ◌^◌, ◌≤◌, ◌<◌, IfSome};
ghost use Rattle.pair.specs.Rounding.{root_up};

use crate::guesses;

// A scale at which roots are worked: its units in 1, a multiple of 64.
#[derive(Clone, Copy, Debug, PartialEq, Eq)]
pub struct RootScale {
    pub units: u64,
    ghost digits: { units % 64 ≡ 0 },
}

// A square root with what is left over.
#[derive(Clone, Copy, Debug, PartialEq, Eq)]
pub struct Square {
    pub root: u64,
    pub rest: u64,
    ghost small: { rest ≤ 2 * root },
}

// A cube root with what is left over, and three times the root's square.
#[derive(Clone, Copy, Debug, PartialEq, Eq)]
pub struct Cube {
    pub root: u64,
    pub triple: u64,
    pub rest: u64,
    ghost thrice: { triple ≡ 3 * (root * root) },
    ghost small: { rest ≤ triple + 3 * root },
}

impl Square {
    ghost use Rattle.pair.specs.Roots.{square_taken};

    // Two bits more of the number, and one bit more of the root.
    #[tactic(auto, using(crate::proofs::Steps::square_steps))]
    pub fn with_digit(self, digit: u64) -> Self
        requires room { self.root < 2 ^ 60 }
        requires digit { digit < 4 }
        ensures { square_taken result ≡ square_taken self * 4 + digit }
    {
        let part = self.rest * 4 + digit;
        let odd = self.root * 4 + 1;
        let bit = (odd <= part) as u64;
        Square {
            root: self.root * 2 + bit,
            rest: part - bit * odd,
        }
    }

    // Three digits 0 more.
    fn by_64(self) -> Self
        requires { square_taken self * 64 < 2 ^ 70 }
        ensures { square_taken result ≡ square_taken self * 64 }
    {
        self.with_digit(0).with_digit(0).with_digit(0)
    }

    // The root rounded up.
    fn up(self) -> u64
        requires { self.root < 2 ^ 60 }
        ensures { result ≡ root_up 2 (square_taken self) }
    {
        self.root + self.rest.min(1)
    }

    // The root of hi * s rounded up, from this of lo * s. What it would leave of hi * s is left, so the
    // root is higher by d = left / (2 * root + 1) rounded up, where d - 1 is not enough.
    pub fn above(self, lo: u64, hi: u64, s: RootScale) -> u64
        requires order { lo ≤ hi }
        requires fits { hi * s.units < 2 ^ 70 }
        requires taken { square_taken self ≡ lo * s.units }
        ensures { result ≡ root_up 2 (hi * s.units) }
    {
        let more = hi - lo;
        let twice = self.root * 2;
        if more < 0x10_0000 && s.units < 0x100_0000_0000 {
            let left = more * s.units + self.rest;
            let d = (left + twice) / (twice + 1);
            if d == 0 {
                return self.root;
            }
            if d < 0x10_0000 && (d - 1) * (twice + (d - 1)) < left {
                return self.root + d;
            }
        }
        Square::scaled(hi, s).up()
    }

    // Called, and not put in place: so the loop over two roots takes less time.
    #[inline(never)]
    fn by_bits(n: u64) -> Square
        ensures { square_taken result ≡ n }
    {
        let mut t = Square { root: 0, rest: 0 };
        let digits = (65 - n.leading_zeros()) / 2;
        for at in (0..digits).rev() {
            t = t.with_digit((n >> (at * 2)) % 4);
        }
        t
    }

    // The root of n: the guess or one more, where what that leaves shows that it is right.
    #[inline]
    fn guessed(n: u64) -> Option<Square>
        ensures { IfSome result (λ t. square_taken t ≡ n) }
    {
        let guess = guesses::square_root(n) as u64;
        let rest = n.checked_sub(guess * guess)?;
        let more = (guess * 2 < rest) as u64;
        let root = guess + more;
        let rest = rest - more * (guess * 2 + 1);
        if rest <= root * 2 {
            Some(Square { root, rest })
        } else {
            None
        }
    }

    // The root of n, by the guess or bit by bit.
    pub fn of(n: u64) -> Square
        ensures { square_taken result ≡ n }
    {
        Square::guessed(n).unwrap_or_else(|| Square::by_bits(n))
    }

    // The root of v * s. Where that passes 64 bits: of v * (s / 64), and three digits 0 more.
    #[tactic(auto, using(crate::proofs::ScaledRoot::by_64))]
    pub fn scaled(v: u64, s: RootScale) -> Square
        requires { v * s.units < 2 ^ 70 }
        ensures { square_taken result ≡ v * s.units }
    {
        match v.checked_mul(s.units) {
            Some(n) => Square::of(n),
            None => Square::of(v * (s.units / 64)).by_64(),
        }
    }
}

impl Cube {
    ghost use Rattle.pair.specs.Roots.{cube_taken};

    // Three bits more of the number, and one bit more of the root.
    #[tactic(auto, using(crate::proofs::Steps::cube_steps))]
    pub fn with_digit(self, digit: u64) -> Self
        requires room { self.root < 2 ^ 28 }
        requires digit { digit < 8 }
        ensures { cube_taken result ≡ cube_taken self * 8 + digit }
    {
        let part = self.rest * 8 + digit;
        let odd = self.triple * 4 + self.root * 6 + 1;
        let bit = (odd <= part) as u64;
        Cube {
            root: self.root * 2 + bit,
            triple: self.triple * 4 + bit * (self.root * 12 + 3),
            rest: part - bit * odd,
        }
    }

    // The root rounded up.
    fn up(self) -> u64
        requires { self.root < 2 ^ 28 }
        ensures { result ≡ root_up 3 (cube_taken self) }
    {
        self.root + self.rest.min(1)
    }

    // The root of hi * s * s rounded up, from this of lo * s * s, as for a square root: here
    // d = left / (3 * root * root + 3 * root + 1) rounded up.
    pub fn above(self, lo: u64, hi: u64, s: RootScale) -> u64
        requires order { lo ≤ hi }
        requires fits { hi * (s.units * s.units) < 2 ^ 76 }
        requires taken { cube_taken self ≡ lo * (s.units * s.units) }
        ensures { result ≡ root_up 3 (hi * (s.units * s.units)) }
    {
        let more = hi - lo;
        let thrice = self.root * 3;
        if more < 0x4000 && s.units < 0x100_0000 {
            let left = more * (s.units * s.units) + self.rest;
            let gap = self.triple + thrice;
            let d = (left + gap) / (gap + 1);
            if d == 0 {
                return self.root;
            }
            if d < 0x400 && (d - 1) * (self.triple + (d - 1) * (thrice + (d - 1))) < left {
                return self.root + d;
            }
        }
        Cube::scaled(hi, s).up()
    }

    // The cube root of n, bit by bit.
    pub fn of(n: u64) -> Cube
        ensures { cube_taken result ≡ n }
    {
        let mut t = Cube {
            root: 0,
            triple: 0,
            rest: 0,
        };
        let digits = (66 - n.leading_zeros()) / 3;
        for at in (0..digits).rev() {
            t = t.with_digit((n >> (at * 3)) % 8);
        }
        t
    }

    // The cube root of v * s * s, which may pass 64 bits: of v * (s / 64) * (s / 64), and four digits 0 more.
    #[tactic(auto, using(crate::proofs::ScaledRoot::by_4096, crate::proofs::ScaledRoot::factor_fits, crate::proofs::ScaledRoot::cube_room))]
    pub fn scaled(v: u64, s: RootScale) -> Cube
        requires { v * (s.units * s.units) < 2 ^ 76 }
        ensures { cube_taken result ≡ v * (s.units * s.units) }
    {
        let part = s.units / 64;
        Cube::of(v * part * part)
            .with_digit(0)
            .with_digit(0)
            .with_digit(0)
            .with_digit(0)
    }
}
