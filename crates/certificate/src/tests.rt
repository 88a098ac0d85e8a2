//! Texts of certificates: one with every kind of line, and wrong ones with their first wrong line.
use crate::{CertFault, read_certificate, write_certificate};
use std::alloc::Global;
use std::test::Fail;

const HEAD: &[u8] =
    b"nosleep 1\nlist 000102030405060708090a0b0c0d0e0f10111213\ndex ffffffffffffffffffffffffffffffffffffffff\n";

const WHOLE: &[u8] =
    b"nosleep 1\nlist 000102030405060708090a0b0c0d0e0f10111213\ndex ffffffffffffffffffffffffffffffffffffffff\ndex 0000000000000000000000000000000000000000\nlock 0 Lapp/R;->wl\nview 0 0 87\nview 0 255 01\nview 1 0 02\nview 4294967295 255 ff\nbody 0 A 06 05 010101\nbody 0 C0 00 00 0002\nbody 7 L 80 80 80\nbody 4294967295 U1 01 00 00\nlock 1 La;->\\x20\nend\n";

// The first wrong line of a text; 0 of one that is read.
fn wrong_line(alloc: Global, text: &[u8]) -> u64 {
    match read_certificate(alloc, text) {
        Ok(_) => 0,
        Err(CertFault::Line(line)) => line,
        Err(CertFault::Memory) => 99,
    }
}

// The same of the head with lines behind it.
fn wrong_behind_head(alloc: Global, lines: &[u8]) -> Result<u64, Fail> {
    let mut text = HEAD.to_vec(alloc)?;
    text.extend_from_slice(lines)?;
    Ok(wrong_line(alloc, &text))
}

#[test]
fn what_is_read_is_written_again(rt: HostRuntime) -> Result<(), Fail> {
    let cert = read_certificate(rt.alloc(), WHOLE)
        .ok()
        .ok_or("it is a text")?;
    assert_eq!(rt; cert.dex.len(), 2);
    assert_eq!(rt; cert.locks.len(), 2);
    let text = write_certificate(rt.alloc(), &cert)
        .ok()
        .ok_or("there is memory")?;
    assert_eq!(rt; text.as_slice(), WHOLE);
    Ok(())
}

#[test]
fn wrong_texts_name_their_line(rt: HostRuntime) {
    let texts: [(&[u8], u64); 15] = [
        (b"", 1),
        (b"\n", 1),
        (b"nosleep 1", 1),
        (b"nosleep 2\n", 1),
        (b"nosleep 01\n", 1),
        (b"nosleep 1 \n", 1),
        (b"nosleep 1\r\n", 1),
        (b"nosleep 1\n", 2),
        (b"nosleep 1\nnosleep 1\n", 2),
        (b"nosleep 1\nlist 00\n", 2),
        (
            b"nosleep 1\nlist 000102030405060708090A0b0c0d0e0f10111213\n",
            2,
        ),
        (
            b"nosleep 1\nlist 000102030405060708090a0b0c0d0e0f10111213\nend\n",
            3,
        ),
        (
            b"nosleep 1\ndex 000102030405060708090a0b0c0d0e0f10111213\n",
            2,
        ),
        (&WHOLE[..WHOLE.len() - 1], 15),
        (&WHOLE[..WHOLE.len() - 4], 15),
    ];
    for (text, line) in texts {
        assert_eq!(rt; wrong_line(rt.alloc(), text), line);
    }
}

#[test]
fn wrong_rows_name_their_line(rt: HostRuntime) -> Result<(), Fail> {
    let rows: [(&[u8], u64); 26] = [
        (b"end\n", 0),
        (b"lock 0 a\nend\n", 0),
        (b"end\n\n", 5),
        (b"end\nend\n", 5),
        (b"view 0 0 01\nend\n", 4),
        (b"lock 1 a\nend\n", 4),
        (b"lock 00 a\nend\n", 4),
        (b"lock 0 a b\nend\n", 4),
        (b"lock 0 \nend\n", 4),
        (b"lock 0 a\nlock 0 a\nend\n", 5),
        (b"lock 0 a\nview 0 0\nend\n", 5),
        (b"lock 0 a\nview +0 0 01\nend\n", 5),
        (b"lock 0 a\nview -1 0 01\nend\n", 5),
        (b"lock 0 a\nview 0 00 01\nend\n", 5),
        (b"lock 0 a\nview 4294967296 0 01\nend\n", 5),
        (b"lock 0 a\nview 0 256 01\nend\n", 5),
        (b"lock 0 a\nview 0 0 00\nend\n", 5),
        (b"lock 0 a\nview 0 0 8A\nend\n", 5),
        (b"lock 0 a\nview 0 1 01\nview 0 1 01\nend\n", 6),
        (b"lock 0 a\nview 1 0 01\nview 0 1 01\nend\n", 6),
        (b"lock 0 a\nbody 0 A 01 00 00\nview 0 1 01\nend\n", 6),
        (b"lock 0 a\nbody 0 C0 01 00 00\nbody 0 A 01 00 00\nend\n", 6),
        (b"lock 0 a\nbody 0 A 00 00 0000\nend\n", 5),
        (b"lock 0 a\nbody 0 A 01 00 \nend\n", 5),
        (b"lock 0 a\nbody 0 C3 01 00 00\nend\n", 5),
        (b"lock 0 a\nbody 0 A 01 00 001\nend\n", 5),
    ];
    for (lines, line) in rows {
        assert_eq!(rt; wrong_behind_head(rt.alloc(), lines)?, line);
    }
    Ok(())
}
