use crate::{each_line, each_line_of};
use std::io;
use std::io::ErrorKind;
use std::test::Fail;

// A text and its lines, as Rust's page on `str::lines` has them.
const ENDED: &str = "foo\nbar\n\r\nbaz";

const ENDED_LINES: [&str; 4] = ["foo", "bar", "", "baz"];

const RETURNED: &str = "foo\r\nbar\n\nbaz\r";

const RETURNED_LINES: [&str; 4] = ["foo", "bar", "", "baz\r"];

fn ask(holds: bool) -> io::Result<()> {
    if holds {
        Ok(())
    } else {
        Err(ErrorKind::Other.into())
    }
}

#[test]
fn runs_on_the_lines_of_a_text(rt: HostRuntime) -> Result<(), Fail> {
    for (text, lines) in [(ENDED, ENDED_LINES), (RETURNED, RETURNED_LINES)] {
        let mut expected = lines.iter();
        each_line_of(text, |line| ask(expected.next() == Some(&line)))?;
        assert_eq!(rt; expected.next(), None);
    }
    Ok(())
}

#[test]
fn runs_on_the_lines_of_what_is_read(rt: HostRuntime) -> Result<(), Fail> {
    let mut expected = RETURNED_LINES.iter();
    let mut reader = RETURNED.as_bytes();
    each_line(&mut reader, |line| ask(expected.next() == Some(&line)))?;
    assert_eq!(rt; expected.next(), None);
    assert!(rt; reader.is_empty());
    Ok(())
}

// 0xFF stands in no text, so no line is run.
#[test]
fn refuses_bytes_that_are_no_text(rt: HostRuntime) {
    let mut reader: &[u8] = b"one\n\xFF\n";
    let done = each_line(&mut reader, |_| ask(false));
    assert_eq!(rt; done.err().map(|e| e.kind()), Some(ErrorKind::InvalidData));
}
