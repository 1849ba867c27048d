// Works the sections of standard input, one to a line: the numbers of a sheet in decimal,
// with a blank between. Prints the line of results of each that meets questions 2 to 10, and
// `refused` with the question and the line for any other. tests/section_cases.sh has the reference
// write the sections and what is to be printed.
#![tactic(auto)]

ghost use Rattle.section.specs.Sound.{Sound};

use certificate::verdicts;
use questions::answers::Reason;
use section::{SHEET_LINES, Sheet, SoundSheet};
use std::{array, io};

fn sheet_in(line: &[u8]) -> Sheet {
    let numbers: [u64; SHEET_LINES] = array::from_fn(|i| cases::number(line, i));
    Sheet::from(numbers)
}

// The line of a section that meets questions 2 to 10: the ends of area, both factors and shift, then the printed
// figures.
fn work(rt: &impl Print, q: Sheet) -> io::Result<()>
    requires { Sound q }
{
    let worked = SoundSheet { sheet: q }.work(q.scale());
    let w = worked.work;
    let f = worked.figures();
    print!(rt; "{} {} {} {} ", w.area.lo, w.area.hi, w.chi1.lo, w.chi1.hi)?;
    print!(rt;
        "{} {} {} {} ",
        w.chi2.lo, w.chi2.hi, w.shift.lo, w.shift.hi
    )?;
    print!(rt; "{} {} {} {} ", f.area, f.axial, f.chi1, f.chi2)?;
    println!(rt; "{} {}", f.shiftlo, f.shifthi)
}

fn run(rt: &impl Print, q: Sheet) -> io::Result<()> {
    match verdicts::first_refusal(q) {
        Err(r) => {
            let a = r.told();
            println!(rt; "refused {} {}", a.refusal, a.line)
        }
        Ok(()) => work(rt, q),
    }
}

fn main(rt: HostRuntime) -> io::Result<()> {
    cases::each_line_as_bytes(&mut rt.stdin(), |line| run(&rt, sheet_in(line)))
}
