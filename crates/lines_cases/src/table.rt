// A table of five lines.
ghost use Rattle.std.specs.Prelude.{◌≡◌, ◌≤◌, length, map, IfOk};
ghost use Rattle.lines.specs.Fields.{field};
ghost use Rattle.lines.specs.Forms.{reading};
ghost use Rattle.lines.specs.Reading.{read_lines};
ghost use Rattle.lines.specs.Texts.{lines_text};
ghost use Rattle.lines_cases.specs.Table.{table};

use lines::keys::{Key, Kind};
use lines::reading;
use lines::reading::BadLine;
use lines::writing::Lines;

pub const COUNT: usize = 5;

static ROWS: [Key<'static>; COUNT] = [
    Key {
        text: b"form=",
        kind: Kind::Letter(b'C', b'Z'),
    },
    Key {
        text: b"n=",
        kind: Kind::Number,
    },
    Key {
        text: b"longest=",
        kind: Kind::Number,
    },
    Key {
        text: b"z=",
        kind: Kind::Signed,
    },
    Key {
        text: b"live=",
        kind: Kind::Letter(b'0', b'1'),
    },
];

#[tactic(auto, unfolding(crate::specs::Table::table))]
pub fn rows() -> &'static [Key<'static>]
    ensures fields { map field result.now ≡ table }
    ensures count { length result.now ≡ 5 }
{
    &ROWS
}

// Reads the lines, behind which nothing may stand.
#[tactic(auto, using(crate::proofs::TableLengths::read_text))]
pub fn read_lines(s: &[u8]) -> Result<[i128; COUNT], BadLine>
    ensures value { reading result ≡ read_lines table s.now }
    ensures short { IfOk result (λ values. length (lines_text table values) ≤ 60) }
{
    reading::table(s, rows())
}

// The lines with these values.
pub fn text(values: &[i128; COUNT]) -> Lines<'_>
    ensures { lines_text (map field result.keys.now) result.values.now ≡ lines_text table values.now }
{
    Lines {
        keys: rows(),
        values,
    }
}
