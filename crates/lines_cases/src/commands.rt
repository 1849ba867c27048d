// What a case asks, and what it prints.
ghost use Rattle.std.specs.Prelude.{◌≤◌, ◌<◌, ◌^◌, length, unsigned_abs};

use crate::table;
use lines::decimal::Fixed;
use lines::rows::Row;
use lines::texts::Text;
use lines::writing::Line;
use lines::{reading, splitting};
use std::io;

// The most bytes of a case.
const ROOM: usize = 512;

// The name of an answer, its number, and a newline.
fn answer(rt: &impl Print, name: &str, number: u64) -> io::Result<()> {
    println!(rt; "{name} {number}")
}

// Writes the text into the middle of a buffer, and prints it with its length and with the bytes before
// and behind.
fn show<T: Text>(rt: &impl Print, name: &str, text: &T) -> io::Result<()>
    requires { length (T.bytes text.now) ≤ 198 }
{
    let mut out = [b'.'; 200];
    let n = text.put(&mut out[1..]);
    answer(rt, name, n as u64)?;
    rt.write_all(&out[..n + 2])?;
    rt.write_all(b"\n")
}

// The case is read as lines.
fn read(rt: &impl Print, case: &[u8]) -> io::Result<()> {
    match table::read_lines(case) {
        Ok(values) => show(rt, "right", &table::text(&values)),
        Err(bad) => answer(rt, "bad", bad.0 as u64),
    }
}

// The number of eight bytes, or of as many as there are.
fn number(bytes: &[u8]) -> u64 {
    bytes.iter().take(8).fold(0u64, |n, byte| {
        n.wrapping_mul(256).wrapping_add(u64::from(*byte))
    })
}

// A size with its sign.
fn signed(sign: u8, size: u64) -> i128
    ensures { unsigned_abs result < 2 ^ 64 }
{
    let size = i128::from(size);
    if sign == 1 { -size } else { size }
}

// A line from its row, its sign and its size.
#[tactic(auto, using(lines::proofs::Laws::line_most))]
fn write(rt: &impl Print, case: &[u8]) -> io::Result<()> {
    let [row, sign, size @ ..] = case else {
        return Ok(());
    };
    match table::rows().get(*row as usize) {
        Some(key) if key.text.len() <= 8 => {
            let value = signed(*sign, number(size));
            show(rt, "line", &Line { key: *key, value })
        }
        _ => Ok(()),
    }
}

#[tactic(auto, using(lines::proofs::Laws::row_most))]
fn show_row(rt: &impl Print, numbers: &[u64]) -> io::Result<()>
    requires { length numbers.now ≤ 8 }
{
    show(rt, "row", &Row(numbers))
}

// The numbers of the case in a row, at most eight.
fn write_row(rt: &impl Print, case: &[u8]) -> io::Result<()> {
    let mut numbers = [0; 8];
    for (place, bytes) in numbers.iter_mut().zip(case.chunks_exact(8)) {
        *place = number(bytes);
    }
    show_row(rt, &numbers[..(case.len() / 8).min(8)])
}

// So many digits of a number.
#[tactic(auto, using(lines::proofs::Laws::fixed_length))]
fn write_fixed(rt: &impl Print, case: &[u8]) -> io::Result<()> {
    let Some((digits, number_bytes)) = case.split_first() else {
        return Ok(());
    };
    let fixed = Fixed {
        number: number(number_bytes),
        digits: *digits as usize % 21,
    };
    show(rt, "fixed", &fixed)
}

// So many digits are read.
fn read_fixed(rt: &impl Print, case: &[u8]) -> io::Result<()> {
    let Some((digits, text)) = case.split_first() else {
        return answer(rt, "bad", 0);
    };
    match reading::fixed(text, *digits as usize % 20) {
        Some((n, behind)) => {
            answer(rt, "number", n)?;
            answer(rt, "behind", case.len().saturating_sub(behind.len()) as u64)
        }
        None => answer(rt, "bad", 0),
    }
}

// The place behind each line.
#[tactic(auto, using(lines::proofs::Laws::end_behind))]
fn split(rt: &impl Print, case: &[u8]) -> io::Result<()> {
    let mut at = 0;
    while at < case.len() {
        at = splitting::line_end(case, at);
        answer(rt, "end", at as u64)?;
    }
    answer(rt, "split", at as u64)
}

// What a hexadecimal digit stands for: 0 to 9, a to f.
fn digit(byte: u8) -> u8
    ensures { result < 16 }
{
    if byte < b'a' {
        byte % 16
    } else {
        (byte - b'a') % 6 + 10
    }
}

// The byte of two digits, or of the one that is left.
fn byte(digits: &[u8]) -> u8 {
    digits
        .iter()
        .fold(0, |begun, next| begun % 16 * 16 + digit(*next))
}

// The bytes of a case, with zeros behind them.
fn decoded(digits: &[u8]) -> [u8; ROOM] {
    let mut bytes = [0; ROOM];
    for (place, pair) in bytes.iter_mut().zip(digits.chunks(2)) {
        *place = byte(pair);
    }
    bytes
}

// A letter, and at most 512 bytes in hexadecimal. What is written needs no more bytes than are there: zeros stand
// for the others.
pub fn run(rt: &impl Print, line: &[u8]) -> io::Result<()> {
    let (letter, digits) = match line.split_first() {
        Some((letter, digits)) => (*letter, digits),
        None => (b's', line),
    };
    let bytes = decoded(digits);
    let case = &bytes[..(digits.len() / 2).min(ROOM)];
    match letter {
        b'r' => read(rt, case),
        b'w' => write(rt, &bytes),
        b'd' => write_row(rt, case),
        b'f' => write_fixed(rt, &bytes),
        b'g' => read_fixed(rt, case),
        _ => split(rt, case),
    }
}
