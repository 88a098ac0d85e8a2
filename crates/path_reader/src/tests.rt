//! Texts of reports: one with every kind of line, and wrong ones with their first wrong line.
use crate::{ReadBack, read_reports};
use path_text::put_path;
use std::alloc::Global;
use std::test::Fail;

static FIRST: &[u8] = b"body 0 4294967295 A ret C1 0/A 15/A 17/C0/7 32/C1
body 1 3 L exc CT
view 0 0 0 A start
view 1 2 255 U1 outside 0 5
view 2 2 4 U0 own 1 6 0
view 3 0 0 C2 other 0 2 1 1
view 4 0 0 C1 other 0 2 1 -
exit 9 8 C1 4 0 63
";

static SECOND: &[u8] = b"exit 0 0 C1 0 - 0\n";

// Both reports with their heads.
fn two_reports(alloc: Global) -> Result<Vec<u8>, Fail> {
    let mut text = b"report 1 of 2: Lapp/A;->wl is C1 after x\n".to_vec(alloc)?;
    text.extend_from_slice(FIRST)?;
    text.extend_from_slice(b"report 2 of 2: \n")?;
    text.extend_from_slice(SECOND)?;
    Ok(text)
}

// The first wrong line of a text; 0 of one that is read.
fn wrong_line(alloc: Global, text: &[u8]) -> u64 {
    match read_reports(alloc, text) {
        Ok(_) => 0,
        Err(ReadBack::Line(line)) => line,
        Err(ReadBack::Memory) => 99,
    }
}

#[test]
fn what_was_written_is_read(rt: HostRuntime) -> Result<(), Fail> {
    let alloc = rt.alloc();
    let text = two_reports(alloc)?;
    let reports = read_reports(alloc, &text).ok().ok_or("it is a text")?;
    let mut wanted = FIRST.to_vec(alloc)?;
    wanted.extend_from_slice(SECOND)?;
    let mut written = Vec::new(alloc);
    for report in &reports {
        put_path(&mut written, report)?;
        assert_eq!(rt; report.callback, report.edge);
    }
    assert_eq!(rt; written.as_slice(), wanted.as_slice());
    Ok(())
}

#[test]
fn texts_that_end_too_early(rt: HostRuntime) -> Result<(), Fail> {
    let text = two_reports(rt.alloc())?;
    let mut line: u64 = 1;
    for n in 1..text.len() {
        let front = text.split_at(n).0;
        if front.last() == Some(&b'\n') {
            line = line.wrapping_add(1);
        }
        assert_eq!(rt; wrong_line(rt.alloc(), front), line);
    }
    assert_eq!(rt; wrong_line(rt.alloc(), &text), 0);
    assert_eq!(rt; wrong_line(rt.alloc(), b""), 0);
    Ok(())
}

static WRONG: [(&[u8], u64); 34] = [
    (b"\n", 1),
    (b"report 1 of 0: \n", 1),
    (b"report 0 of 1: \n", 1),
    (b"report 2 of 2: \n", 1),
    (b"report 1 of 1:\n", 1),
    (b"report 1 of 1 \n", 1),
    (b"report 1 of 01: \n", 1),
    (b"report 1 of 1:: \n", 1),
    (b"report  1 of 1: \n", 1),
    (b"report 1 of 4294967296: \n", 1),
    (b"report 1 of 4294967295: \n", 2),
    (b"exit 0 0 A 0 - 0\n", 1),
    (b"report 1 of 1: a\nreport 1 of 1: a\n", 2),
    (b"report 1 of 1: a\nexit 0 0 A 0 - 0\n\n", 3),
    (b"report 1 of 1: a\nexit 0 0 A 0 - 0\nexit 0 0 A 0 - 0\n", 3),
    (b"report 1 of 1: a\nexit 0 0 A 0 - 0\nreport 2 of 2: a\n", 3),
    (b"report 1 of 2: a\nexit 0 0 A 0 - 0\nreport 2 of 3: a\n", 3),
    (b"report 1 of 2: a\nexit 0 0 A 0 - 0\nreport 1 of 2: a\n", 3),
    (b"report 1 of 1: a\nexit 0 0 A 0 - 0 \n", 2),
    (b"report 1 of 1: a\nexit 0 0 A 0 - 00\n", 2),
    (b"report 1 of 1: a\nexit 0 0 A 0 - 4294967296\n", 2),
    (b"report 1 of 1: a\nexit 0 0 A1 0 - 0\n", 2),
    (b"report 1 of 1: a\nexit 0  0 A 0 - 0\n", 2),
    (b"report 1 of 1: a\nexit 0 0 A - - 0\n", 2),
    (b"report 1 of 1: a\nbody 1 0 A ret A\n", 2),
    (b"report 1 of 1: a\nbody 0 0 A end A\n", 2),
    (b"report 1 of 1: a\nbody 0 0 A ret A \n", 2),
    (b"report 1 of 1: a\nbody 0 0 A ret A 0\n", 2),
    (b"report 1 of 1: a\nbody 0 0 A ret A 0/A/\n", 2),
    (b"report 1 of 1: a\nbody 0 0 A ret A 0/A/1/1\n", 2),
    (b"report 1 of 1: a\nbody 0 0 A ret A\nbody 0 0 A ret A\n", 3),
    (b"report 1 of 1: a\nview 1 0 0 A start\n", 2),
    (b"report 1 of 1: a\nview 0 0 256 A start\n", 2),
    (
        b"report 1 of 1: a\nview 0 0 0 A start\nbody 0 0 A ret A\n",
        3,
    ),
];

#[test]
fn wrong_texts_name_their_line(rt: HostRuntime) {
    for (text, line) in WRONG.iter() {
        assert_eq!(rt; wrong_line(rt.alloc(), text), *line);
    }
}
