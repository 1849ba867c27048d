// The rows of a table of lines, which reader and writer share.

// What stands behind a key: one of two letters, for 0 and for 1; a number; a number that may have a
// minus.
#[derive(Clone, Copy, Debug, PartialEq, Eq)]
pub enum Kind {
    Letter(u8, u8),
    Number,
    Signed,
}

// A key with its '=', and the kind of its value.
#[derive(Clone, Copy, Debug, PartialEq, Eq)]
pub struct Key<'a> {
    pub text: &'a [u8],
    pub kind: Kind,
}

pub const NEWLINE: u8 = b'\n';

pub const BLANK: u8 = b' ';
