//! Pieces of a line.

ghost use Rattle.std.specs.Prelude.{◌≡◌, ◌≢◌, ◌++◌, [], codes, decimal, OnOk};

use ft_base::{Memory, Text};

// Appends a letter and a number.
pub fn push_lettered(letter: &str, number: u64, out: &mut Text) -> Result<(), Memory>
    ensures ok { OnOk result (out.new ≡ out.old ++ letter.now ++ decimal number) }
{
    out.push_str(letter)?;
    out.push_number(number)
}

// What stands before the part at place `i`, counted from 0, of parts that commas join.
pub fn comma_before(i: u64) -> &'static str
    ensures first { i ≡ 0 → result.now ≡ [] }
    ensures further { i ≢ 0 → result.now ≡ codes "," }
{
    if i == 0 {
        return "";
    }
    ","
}
