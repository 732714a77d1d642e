// What the programs read: the front of an input, and the sheet of the feeder.
#![tactic(auto)]

ghost use Rattle.std.specs.Prelude.{◌<◌, ◌≤◌, length, IfOk};
ghost use Rattle.std.specs.Io.KnownBytes.{Consumes, IsAtEnd};

use std::fs::File;
use std::io;
use std::io::Read;

// The most bytes of a feeder's sheet that are read.
pub const SHEET_MOST: usize = 1024;

const SHEET_FILE: &str = "feeder.sht";

// Reads until the buffer is full or the input ends, and gives the bytes that were read.
pub fn read_front<'b, R: Read>(source: &mut R, buffer: &'b mut [u8]) -> io::Result<&'b [u8]>
    ensures fits { IfOk result (λ front. length front.now ≤ length buffer.old) }
    ensures takes { IfOk result (λ front. Consumes (R.Read.remaining source.old) (R.Read.remaining source.new) front.now) }
    ensures whole { IfOk result (λ front. length front.now < length buffer.old → IsAtEnd (R.Read.remaining source.new)) }
{
    let mut filled = 0;
    while filled < buffer.len() {
        let more = source.read(&mut buffer[filled..])?;
        if more == 0 {
            break;
        }
        filled += more;
    }
    Ok(&buffer[..filled])
}

// The bytes of the feeder's sheet; a file that cannot be read counts as empty.
pub fn sheet_bytes<'b>(rt: &HostRuntime, buffer: &'b mut [u8; SHEET_MOST]) -> &'b [u8]
    ensures { length result.now ≤ 1024 }
{
    match File::open(rt, SHEET_FILE) {
        Ok(mut file) => read_front(&mut file, buffer).unwrap_or(&[]),
        Err(_) => &[],
    }
}
