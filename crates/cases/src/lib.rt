// What the programs that run cases share: the lines of standard input, and the numbers of a line.
#![tactic(auto)]

ghost use Rattle.std.specs.Prelude.{◌<◌, ◌≤◌, ◌≡◌, ◌^◌, unsigned_abs, List, ℕ, OnOk, length, drop, suc};
ghost use Rattle.std.specs.Iterator.{at_most};
ghost use Rattle.std.specs.Io.KnownBytes.{Consumes};
ghost use Rattle.cases.specs.Lines.{FirstLine, RunsOn, RunsOnBytes, end_of_line};

use lines::splitting;
use report::streams;
use std::io::{ErrorKind, Read};
use std::{io, str};

#[cfg(test)]
mod tests;

// Where the first line ends: at its newline, or with the bytes.
fn end_of_line(s: &[u8]) -> usize
    ensures value { result ≡ end_of_line s.now }
    ensures upper_bound { result ≤ length s.now }
{
    splitting::first_newline(s).unwrap_or(s.len())
}

// What stands behind a place, or nothing.
fn behind(s: &[u8], at: usize) -> &[u8]
    ensures { result.now ≡ drop (suc at) s.now }
{
    if at < s.len() { &s[at + 1..] } else { &[] }
}

// The lines of some bytes, without their newlines.
#[derive(Drop)]
struct Lines<'a> {
    rest: &'a [u8],
}

impl<'a> Iterator for Lines<'a> {
    type Item = &'a [u8];

    ghost remaining = { λ s. at_most (length s.rest.now) };

    ghost next_gives = { λ s r t. FirstLine s.rest.now r t.rest.now };

    fn next(&mut self) -> Option<&'a [u8]> {
        if self.rest.is_empty() {
            return None;
        }
        let end = end_of_line(self.rest);
        let line = &self.rest[..end];
        self.rest = behind(self.rest, end);
        Some(line)
    }
}

// Runs `run` on each line of some bytes, in their order, until one fails.
pub fn each_line_of_bytes<F: FnMut(&[u8]) -> io::Result<()>>(bytes: &[u8], run: F) -> io::Result<()>
    requires { F.IsAlwaysCallable run }
    ensures { OnOk result (RunsOnBytes F.FnMut run bytes.now) }
{
    (Lines { rest: bytes }).try_for_each(run)
}

// The same of the first ROOM bytes that the reader gives.
fn each_line_of_bytes_within<R: Read, F: FnMut(&[u8]) -> io::Result<()>, const ROOM: usize>(
    reader: &mut R,
    run: F,
) -> io::Result<()>
    requires callable { F.IsAlwaysCallable run }
    requires room { ROOM < 2 ^ 63 }
    ensures { OnOk result ((bytes : List ℕ) × Consumes (R.remaining reader.old) (R.remaining reader.new) bytes × RunsOnBytes F.FnMut run bytes) }
{
    let mut buffer = [0; ROOM];
    let input = streams::input(reader, &mut buffer)?;
    each_line_of_bytes(input, run)
}

// The same of what the reader gives. What stands behind the last of 1,048,576 bytes stays unread.
pub fn each_line_as_bytes<R: Read, F: FnMut(&[u8]) -> io::Result<()>>(
    reader: &mut R,
    run: F,
) -> io::Result<()>
    requires { F.IsAlwaysCallable run }
    ensures { OnOk result ((bytes : List ℕ) × Consumes (R.remaining reader.old) (R.remaining reader.new) bytes × RunsOnBytes F.FnMut run bytes) }
{
    each_line_of_bytes_within::<R, F, 1_048_576>(reader, run)
}

// Runs `run` on each line of a text, in their order, until one fails.
pub fn each_line_of<F: FnMut(&str) -> io::Result<()>>(text: &str, run: F) -> io::Result<()>
    requires { F.IsAlwaysCallable run }
    ensures { OnOk result (RunsOn F.FnMut run text.now) }
{
    text.lines().try_for_each(run)
}

// The same of the first ROOM bytes that the reader gives.
fn each_line_within<R: Read, F: FnMut(&str) -> io::Result<()>, const ROOM: usize>(
    reader: &mut R,
    run: F,
) -> io::Result<()>
    requires callable { F.IsAlwaysCallable run }
    requires room { ROOM < 2 ^ 63 }
    ensures { OnOk result ((text : List ℕ) × Consumes (R.remaining reader.old) (R.remaining reader.new) text × RunsOn F.FnMut run text) }
{
    let mut buffer = [0; ROOM];
    let input = streams::input(reader, &mut buffer)?;
    let Ok(text) = str::from_utf8(input) else {
        return Err(ErrorKind::InvalidData.into());
    };
    each_line_of(text, run)
}

// The same of what the reader gives. What stands behind the last of 1,048,576 bytes stays unread; bytes that are
// no text are refused as invalid data.
pub fn each_line<R: Read, F: FnMut(&str) -> io::Result<()>>(
    reader: &mut R,
    run: F,
) -> io::Result<()>
    requires { F.IsAlwaysCallable run }
    ensures { OnOk result ((text : List ℕ) × Consumes (R.remaining reader.old) (R.remaining reader.new) text × RunsOn F.FnMut run text) }
{
    each_line_within::<R, F, 1_048_576>(reader, run)
}

// The letter that a line begins with.
pub fn letter(line: &[u8]) -> Option<u8> {
    line.first().copied()
}

// The word behind so many blanks of a line, with a blank between the words.
fn word(line: &[u8], blanks: usize) -> &[u8] {
    line.split(|byte| *byte == b' ').nth(blanks).unwrap_or(&[])
}

// One decimal digit more. No number of the cases passes 64 bits.
fn with_digit(size: u64, digit: u8) -> u64 {
    (size % 1_844_674_407_370_955_162 * 10).wrapping_add(u64::from(digit % 16))
}

// The size of a word's number, 0 where it has none.
fn size(word: &[u8]) -> u64 {
    word.iter()
        .filter(|byte| **byte != b'-')
        .fold(0, |size, byte| with_digit(size, *byte))
}

// The size of the number that stands there.
pub fn number(line: &[u8], blanks: usize) -> u64 {
    size(word(line, blanks))
}

// The number, which lies below zero where a minus stands in it.
pub fn integer(line: &[u8], blanks: usize) -> i128
    ensures { unsigned_abs result < 2 ^ 64 }
{
    let word = word(line, blanks);
    let size = i128::from(size(word));
    if word.contains(&b'-') { -size } else { size }
}
