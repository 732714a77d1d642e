// Lines of scripts and their answers.
use crate::{Request, answer_line, next_line, read_request};
use refusals::Refusal;
use std::test::Fail;

#[test]
fn each_letter_makes_its_request(rt: HostRuntime) -> Result<(), Fail> {
    let script = b"B 7\nA 00007\nK\nS 31\nP\nD 0\nC 99999\nM 00000\nT\n";
    let requests = [
        Request::Bar(7),
        Request::Allow(7),
        Request::Shake,
        Request::Step(31),
        Request::Plan,
        Request::Add(0),
        Request::Cut(99999),
        Request::Aim(0),
        Request::Trace,
    ];
    let mut rest: &[u8] = script;
    for request in requests {
        let (line, after) = next_line(rest).ok_or("no line")?;
        assert_eq!(rt; read_request(line), Some(request));
        rest = after;
    }
    assert!(rt; rest.is_empty());
    Ok(())
}

#[test]
fn other_lines_make_none(rt: HostRuntime) -> Result<(), Fail> {
    let mut rest: &[u8] = b"\nB\nB \nB  1\nB 000001\nB +1\nB\t1\nB 1 \nP 1\nP\r\np\nX\n\0\n";
    for _ in 0..13 {
        let (line, after) = next_line(rest).ok_or("no line")?;
        assert_eq!(rt; read_request(line), None);
        rest = after;
    }
    assert!(rt; rest.is_empty());
    Ok(())
}

#[test]
fn lines_end_at_lf(rt: HostRuntime) -> Result<(), Fail> {
    let (first, more) = next_line(b"P\n\nB 1").ok_or("no line")?;
    assert!(rt; first == b"P".as_slice());
    let (second, last) = next_line(more).ok_or("no line")?;
    assert!(rt; second.is_empty());
    assert!(rt; last == b"B 1".as_slice());
    let (third, nothing) = next_line(last).ok_or("no line")?;
    assert!(rt; third == b"B 1".as_slice());
    assert!(rt; nothing.is_empty());
    assert!(rt; next_line(nothing).is_none());
    Ok(())
}

#[test]
fn answers_are_lines(rt: HostRuntime) -> Result<(), Fail> {
    let planned = answer_line(rt.alloc(), Some(Request::Plan), None, Some(4))?;
    assert!(rt; planned.as_str() == "P 00 4\n");
    let stuck = answer_line(
        rt.alloc(),
        Some(Request::Plan),
        Some(Refusal::CannotOrient),
        None,
    )?;
    assert!(rt; stuck.as_str() == "P 08 -\n");
    let other = answer_line(rt.alloc(), None, None, None)?;
    assert!(rt; other.as_str() == "? 13 -\n");
    Ok(())
}
