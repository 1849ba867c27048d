// Runs crate lines on the cases of standard input, one to a line: a letter, then bytes in hexadecimal.
// r: lines of a small table are read, and written back where they are right; w: a line is written,
// from its row, its sign and its size; d: numbers in a row; f: a number in so many digits; g: so many
// digits are read; s: the places where lines end. What is written stands with its length between two
// points that have to stay. tests/lines_cases.py writes the cases and what is to be printed.
#![tactic(auto)]

mod commands;
mod table;

use std::io;

fn main(rt: HostRuntime) -> io::Result<()> {
    cases::each_line_as_bytes(&mut rt.stdin(), |line| commands::run(&rt, line))
}
