// Lines key=value as texts.
ghost use Rattle.std.specs.Prelude.{◌≡◌, map};
ghost use Rattle.lines.specs.Fields.{field};
ghost use Rattle.lines.specs.Texts.{letter_of, value_text, line_text, lines_text};

use crate::keys::{Key, Kind, NEWLINE};
use crate::texts;
use crate::texts::{Behind, Byte, Text};

// What stands behind a key.
#[derive(Clone, Copy, Debug, PartialEq, Eq)]
pub struct Value {
    pub kind: Kind,
    pub value: i128,
}

impl Text for Value {
    ghost bytes = { λ v. value_text v.kind v.value };

    #[tactic(auto, unfolding(crate::specs::Texts::value_text))]
    fn length(&self) -> usize {
        match self.kind {
            Kind::Letter(_, _) => 1,
            _ => self.value.length(),
        }
    }

    #[tactic(auto, unfolding(crate::specs::Texts::value_text))]
    fn put(&self, out: &mut [u8]) -> usize {
        match self.kind {
            Kind::Letter(zero, one) => Byte(letter_of(zero, one, self.value)).put(out),
            _ => self.value.put(out),
        }
    }
}

// The letter that stands for v.
#[tactic(auto, unfolding(crate::specs::Texts::letter_of))]
fn letter_of(zero: u8, one: u8, v: i128) -> u8
    ensures { result ≡ letter_of zero one v }
{
    if v == 0 { zero } else { one }
}

// A line of a table: its key, its value, and a newline.
#[derive(Clone, Copy, Debug, PartialEq, Eq)]
pub struct Line<'a> {
    pub key: Key<'a>,
    pub value: i128,
}

impl<'a> Line<'a> {
    fn text(&self) -> Behind<&'a [u8], Behind<Value, Byte>>
        ensures key { result.0.now ≡ (field self.now.key).key }
        ensures value { result.1.0 ≡ record { kind = (field self.now.key).kind; value = self.now.value } }
        ensures newline { result.1.1.0 ≡ 10 }
    {
        let value = Value {
            kind: self.key.kind,
            value: self.value,
        };
        Behind(self.key.text, Behind(value, Byte(NEWLINE)))
    }
}

impl Text for Line<'_> {
    ghost bytes = { λ l. line_text (field l.key) l.value };

    #[tactic(auto, unfolding(crate::specs::Texts::line_text))]
    fn length(&self) -> usize {
        self.text().length()
    }

    #[tactic(auto, unfolding(crate::specs::Texts::line_text))]
    fn put(&self, out: &mut [u8]) -> usize {
        self.text().put(out)
    }
}

// The lines of a table with these values, as many as there are of both.
#[derive(Clone, Copy, Debug, PartialEq, Eq)]
pub struct Lines<'a> {
    pub keys: &'a [Key<'a>],
    pub values: &'a [i128],
}

impl Text for Lines<'_> {
    ghost bytes = { λ t. lines_text (map field t.keys.now) t.values.now };

    #[tactic(auto, unfolding(crate::specs::Texts::lines_text))]
    fn length(&self) -> usize {
        let mut n = 0;
        for (key, value) in self.keys.iter().zip(self.values) {
            n += Line {
                key: *key,
                value: *value,
            }
            .length();
        }
        n
    }

    #[tactic(auto, unfolding(crate::specs::Texts::lines_text, questions::specs::Buffers::over))]
    fn put(&self, out: &mut [u8]) -> usize {
        let mut at = 0;
        for (key, value) in self.keys.iter().zip(self.values) {
            let line = Line {
                key: *key,
                value: *value,
            };
            at = texts::put_behind(out, at, &line);
        }
        at
    }
}
