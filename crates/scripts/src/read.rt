// Reads the lines of a script as requests.
ghost use Rattle.std.specs.Prelude.{◌≡◌};
ghost use Rattle.scripts.specs.Reading.{OneMeaning, number_in, request_by, request_of};

use crate::request::Request;

// The request that a line makes, which is given without its LF; None for a line of another form.
pub fn read_request(line: &[u8]) -> Option<Request>
    ensures is { result ≡ request_of line.now }
    ensures law { OneMeaning }
{
    match line {
        [letter] => request_by(char::from(*letter), None),
        [letter, b' ', digits @ ..] => {
            let number = number_of(digits)?;
            request_by(char::from(*letter), Some(number))
        }
        _ => None,
    }
}

// The request that a letter makes, with a number or alone.
// The letters stand in Request::letter too: only here does a letter decide whether a number is wanted.
fn request_by(letter: char, number: Option<u32>) -> Option<Request>
    ensures { result ≡ request_by letter number }
{
    match letter {
        'B' => Some(Request::Bar(number?)),
        'A' => Some(Request::Allow(number?)),
        'K' if number.is_none() => Some(Request::Shake),
        'S' => Some(Request::Step(number?)),
        'P' if number.is_none() => Some(Request::Plan),
        'D' => Some(Request::Add(number?)),
        'C' => Some(Request::Cut(number?)),
        'M' => Some(Request::Aim(number?)),
        'T' if number.is_none() => Some(Request::Trace),
        _ => None,
    }
}

// The number that one to five decimal digits write; None for other bytes.
// By hand: parse takes a sign too, and the digits would have to be tested first.
fn number_of(digits: &[u8]) -> Option<u32>
    ensures { result ≡ number_in digits.now }
{
    if digits.is_empty() || digits.len() > 5 {
        return None;
    }
    let mut number = 0;
    for byte in digits {
        if !byte.is_ascii_digit() {
            return None;
        }
        number = 10 * number + u32::from(*byte - b'0');
    }
    Some(number)
}
