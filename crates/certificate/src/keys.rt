// The keys of a certificate's lines, of which a sheet's are the first; reader and writer use them.
// (docs/WORKING.md, 14.)
ghost use Rattle.std.specs.Prelude.{◌≡◌, length, map};
ghost use Rattle.lines.specs.Fields.{field};
ghost use Rattle.certificate.specs.Keys.{certificate_lines, certificate_fields};

use crate::CERTIFICATE_LINES;
use lines::keys::{Key, Kind};

static KEYS: [Key<'static>; CERTIFICATE_LINES] = [
    Key {
        text: b"form=",
        kind: Kind::Letter(b'C', b'Z'),
    },
    Key {
        text: b"h=",
        kind: Kind::Number,
    },
    Key {
        text: b"b1=",
        kind: Kind::Number,
    },
    Key {
        text: b"b2=",
        kind: Kind::Number,
    },
    Key {
        text: b"c=",
        kind: Kind::Number,
    },
    Key {
        text: b"r=",
        kind: Kind::Number,
    },
    Key {
        text: b"tnom=",
        kind: Kind::Number,
    },
    Key {
        text: b"t=",
        kind: Kind::Number,
    },
    Key {
        text: b"fyb=",
        kind: Kind::Number,
    },
    Key {
        text: b"gm0=",
        kind: Kind::Number,
    },
    Key {
        text: b"rounds=",
        kind: Kind::Number,
    },
    Key {
        text: b"allow=",
        kind: Kind::Number,
    },
    Key {
        text: b"fine=",
        kind: Kind::Number,
    },
    Key {
        text: b"area=",
        kind: Kind::Number,
    },
    Key {
        text: b"axial=",
        kind: Kind::Number,
    },
    Key {
        text: b"chi1=",
        kind: Kind::Number,
    },
    Key {
        text: b"chi2=",
        kind: Kind::Number,
    },
    Key {
        text: b"shiftlo=",
        kind: Kind::Signed,
    },
    Key {
        text: b"shifthi=",
        kind: Kind::Signed,
    },
];

// The lines of a certificate, in their order.
#[tactic(auto, unfolding(crate::specs::Keys::certificate_fields, crate::specs::Keys::sheet_fields, crate::specs::Keys::figure_fields))]
pub fn keys() -> &'static [Key<'static>]
    ensures fields { map field result.now ≡ certificate_fields }
    ensures count { length result.now ≡ certificate_lines }
{
    &KEYS
}
