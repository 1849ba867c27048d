// A guess at a square root, by products alone. How near it comes is promised nowhere: who takes it
// tests it (`roots::Square`). What is worked is halves of a word, whose products fit one.

// The upper half of a product of two halves.
fn upper(x: u32, y: u32) -> u32 {
    (x as u64 * y as u64 / 0x1_0000_0000) as u32
}

// The half of a product of two halves that leaves off its first bit and its last 31.
fn middle(x: u32, y: u32) -> u32 {
    (x as u64 * y as u64 / 0x8000_0000 % 0x1_0000_0000) as u32
}

// From y near 1/√a to y * (3 - a * y * y) / 2, which is nearer: a is in units of 2^-32, y of 2^-31.
fn nearer(a: u32, y: u32) -> u32 {
    middle(y, 0xC000_0000_u32.wrapping_sub(upper(a, upper(y, y))))
}

// √a, both in units of 2^-32, for a from a quarter up to 1: a / √a, with a last step that takes what
// its square leaves of a. 1/√a begins as 2.1328 - 1.2187 * a, which is off by at most 0.086 of it.
fn root_of_part(a: u32) -> u32 {
    let first = 0x10FE_B0D1_u32.wrapping_sub(upper(a, 0x9BFF_4078));
    let y = nearer(a, nearer(a, first));
    let r = middle(a, y);
    let left = a.wrapping_sub(upper(r, r));
    r.wrapping_add(upper(left, y))
}

// The root of n, of which the upper 31 or 32 bits are taken: for n from 2^32 up to 2^62, elsewhere 0.
pub fn square_root(n: u64) -> u32 {
    let half = (65 - n.leading_zeros()) / 2;
    if half < 17 || 31 < half {
        return 0;
    }
    let a = (n >> (half * 2 - 32)) % 0x1_0000_0000;
    root_of_part(a as u32) >> (32 - half)
}
