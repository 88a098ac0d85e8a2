//! Each call, at each type through its trait.
use crate::{CleanShelf, CleanSink, MemoryShelf, MemorySink};
use ns_base::{Shelf, Sink};
use std::alloc::{AllocError, Global};
use std::process::Abort;
use std::test::Fail;

// One read into the front of eight dots: how many bytes it gives, None where it fails, and what
// the eight are after it.
struct Read {
    name: &'static str,
    at: u64,
    room: usize,
    gives: Option<usize>,
    after: &'static [u8; 8],
}

const NOTHING: &[u8; 8] = b"........";

fn read_all<F: Shelf>(rt: &impl Abort, shelf: &mut F, rows: &[Read]) {
    for row in rows {
        let mut buffer = *NOTHING;
        let (into, _) = buffer.split_at_mut(row.room.min(8));
        let Read { name, at, .. } = row;
        assert_eq!(rt;
            shelf.read(name, *at, into).ok(),
            row.gives,
            "{name} at {at}"
        );
        assert_eq!(rt; buffer.as_slice(), row.after.as_slice(), "{name} at {at}");
    }
}

// Pieces, and how many bytes a sink takes of each, None where it fails.
fn write_all<K: Sink>(rt: &impl Abort, sink: &mut K, rows: &[(&'static str, Option<usize>)]) {
    for row in rows {
        assert_eq!(rt; sink.write(row.0.as_bytes()).ok(), row.1, "{}", row.0);
    }
}

fn text(alloc: Global, s: &str) -> Result<String, AllocError> {
    String::from_str(alloc, s)
}

fn bytes(alloc: Global, s: &str) -> Result<Vec<u8>, AllocError> {
    s.as_bytes().to_vec(alloc)
}

#[test]
fn a_shelf_gives_pieces_and_fails_at_named_calls_and_absent_names(
    rt: HostRuntime,
) -> Result<(), Fail> {
    let alloc = rt.alloc();
    let mut shelf = MemoryShelf::new(alloc, 3, [1, 5].to_vec(alloc)?);
    shelf.add(text(alloc, "a")?, bytes(alloc, "hello")?)?;
    read_all(
        &rt,
        &mut shelf,
        &[
            Read {
                name: "a",
                at: 0,
                room: 8,
                gives: Some(3),
                after: b"hel.....",
            },
            // call 1 is named
            Read {
                name: "a",
                at: 3,
                room: 8,
                gives: None,
                after: NOTHING,
            },
            Read {
                name: "a",
                at: 3,
                room: 8,
                gives: Some(2),
                after: b"lo......",
            },
            Read {
                name: "a",
                at: 5,
                room: 8,
                gives: Some(0),
                after: NOTHING,
            },
            Read {
                name: "b",
                at: 0,
                room: 8,
                gives: None,
                after: NOTHING,
            },
            // call 5 is named
            Read {
                name: "a",
                at: 1,
                room: 2,
                gives: None,
                after: NOTHING,
            },
            Read {
                name: "a",
                at: 1,
                room: 2,
                gives: Some(2),
                after: b"el......",
            },
            Read {
                name: "a",
                at: u64::MAX,
                room: 8,
                gives: Some(0),
                after: NOTHING,
            },
            Read {
                name: "a",
                at: 0,
                room: 0,
                gives: Some(0),
                after: NOTHING,
            },
        ],
    );
    shelf.add(text(alloc, "b")?, bytes(alloc, "x")?)?;
    shelf.add(text(alloc, "a")?, bytes(alloc, "HI")?)?;
    read_all(
        &rt,
        &mut shelf,
        &[
            Read {
                name: "b",
                at: 0,
                room: 8,
                gives: Some(1),
                after: b"x.......",
            },
            Read {
                name: "a",
                at: 0,
                room: 8,
                gives: Some(2),
                after: b"HI......",
            },
        ],
    );
    let mut clean = CleanShelf::new(alloc);
    clean.add(text(alloc, "a")?, bytes(alloc, "old")?)?;
    clean.add(text(alloc, "a")?, bytes(alloc, "hello")?)?;
    read_all(
        &rt,
        &mut clean,
        &[
            Read {
                name: "a",
                at: 0,
                room: 8,
                gives: Some(5),
                after: b"hello...",
            },
            Read {
                name: "a",
                at: 4,
                room: 8,
                gives: Some(1),
                after: b"o.......",
            },
            Read {
                name: "a",
                at: 0,
                room: 2,
                gives: Some(2),
                after: b"he......",
            },
            Read {
                name: "a",
                at: 5,
                room: 8,
                gives: Some(0),
                after: NOTHING,
            },
            Read {
                name: "b",
                at: 0,
                room: 8,
                gives: Some(0),
                after: NOTHING,
            },
        ],
    );
    Ok(())
}

#[test]
fn a_sink_takes_pieces_until_it_is_full_and_fails_at_named_calls(
    rt: HostRuntime,
) -> Result<(), Fail> {
    let alloc = rt.alloc();
    let mut sink = MemorySink::new(alloc, 5, 3, [1].to_vec(alloc)?)?;
    write_all(
        &rt,
        &mut sink,
        &[
            ("abcd", Some(3)),
            ("d", None),
            ("defg", Some(2)),
            ("x", Some(0)),
            ("", Some(0)),
        ],
    );
    assert_eq!(rt; sink.bytes(), b"abcde".as_slice());
    let mut clean = CleanSink::new(alloc, 5)?;
    write_all(
        &rt,
        &mut clean,
        &[
            ("abcd", Some(4)),
            ("", Some(0)),
            ("efg", Some(1)),
            ("x", Some(0)),
        ],
    );
    assert_eq!(rt; clean.bytes(), b"abcde".as_slice());
    Ok(())
}
