// One row of a trace.
ghost use Rattle.std.specs.Prelude.{◌≡◌, ◌<◌, length};
ghost use Rattle.traces.specs.Rows.{hex_at, hex8, mark, row_of};

use std::array;

// Fills the row: the action in two digits, or `--` where there is none, a blank, the set in eight hex digits, LF.
// By hand: nothing is known of the bytes that `write!` puts into a slice.
pub(crate) fn write_row(row: &mut [u8], action: Option<u8>, set: u32)
    requires { length row.old ≡ 12 }
    ensures { row.new ≡ row_of action set }
{
    row[..2].copy_from_slice(&mark(action));
    row[2] = b' ';
    row[3..11].copy_from_slice(&hex_digits(set));
    row[11] = b'\n';
}

// The action in two digits, or `--` where there is none.
fn mark(action: Option<u8>) -> [u8; 2]
    ensures { result ≡ mark action }
{
    match action {
        Some(number) => [b'0' + number / 10, b'0' + number % 10],
        None => *b"--",
    }
}

// The set in eight hex digits.
fn hex_digits(set: u32) -> [u8; 8]
    ensures { result ≡ hex8 set }
{
    array::from_fn(|i| hex_digit(set, 7 - i as u32))
}

// The hex digit of the set at a place, counted from the right.
fn hex_digit(set: u32, place: u32) -> u8
    requires { place < 8 }
    ensures { result ≡ hex_at set place }
{
    let digit = (set >> (4 * place)) % 16;
    char::from_digit(digit, 16).unwrap() as u8
}
