// The lines of a script.
ghost use Rattle.std.specs.Prelude.{◌≡◌, length, is_some, MatchOption, nat_lt};
ghost use Rattle.scripts.specs.Split.{FirstLine};

// The next line, without its LF, and the bytes after it; None where no byte is left.
pub fn next_line(rest: &[u8]) -> Option<(&[u8], &[u8])>
    ensures some { is_some result ≡ nat_lt 0 (length rest.now) }
    ensures first { MatchOption result (length rest.now ≡ 0) (λ p. FirstLine rest.now p.0.now p.1.now) }
{
    if rest.is_empty() {
        return None;
    }
    match rest.iter().position(|byte| *byte == b'\n') {
        Some(end) => Some((&rest[..end], &rest[end + 1..])),
        None => Some((rest, &[])),
    }
}
