// What the program prints: specs/Printed.
ghost use Rattle.std.specs.Prelude.{◌≡◌};
ghost use Rattle.tabulate.specs.Printed.{tabulate_prints};

use lip_table::{TABLE_LENGTH, tables};

// The table, which fits the room given.
#[tactic(auto, using(lip_table::proofs::Laws::table_fills))]
pub fn tabulate_prints() -> [u8; TABLE_LENGTH]
    ensures { result ≡ tabulate_prints }
{
    let mut out = [0u8; TABLE_LENGTH];
    tables::write(&mut out);
    out
}
