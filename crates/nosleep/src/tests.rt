//! What no clause says: the answers to whole command lines, and the real outside.
use crate::adapters::{FileShelf, Output};
use crate::top::nosleep;
use certs::{CERTS, LEAKING, ROWS, certificate};
use dex_bytes::adler32;
use lists::{BAD_LISTS, LIST, LISTS, List};
use ns_base::{Exit, Failed, Shelf, Sink};
use ns_memory::{MemoryShelf, MemorySink};
use rows::{ACCEPTED, HANDLES, JUDGED, MAKE, OUTSIDE, R, REFUSED, RETURN, Row, TRY, Told, WORKS};
use std::alloc::{AllocError, Global};
use std::test::Fail;
use std::{fs, io};

mod certs;
mod events;
mod layout;
mod lists;
mod rows;
mod sample;
mod telling;

const WORDS: [&str; 3] = ["receiver", "a", "Lapp/R;"];

const UNREAD: Told = (Exit::ReadFault, "cannot read a\n");

const HELP: Told = (
    Exit::Usage,
    "usage: nosleep receiver [--json] [--count] DEX CLASS
       nosleep verify [--json] [--count] LIST DEX...
       nosleep check [--json] [--count] CERT LIST DEX...
       nosleep demo N
",
);

// Words over the sample `a`, the empty file `e` and the list `l`, and the answer.
static ANSWERS: [(&[&str], Told); 24] = [
    (&["receiver", "a", "Lapp/R;"], ACCEPTED),
    (
        &["receiver", "e", "Lapp/R;"],
        (Exit::Bad, "bad dex 0 Short 0\n"),
    ),
    (
        &["receiver", "a", "Lapp/Q;"],
        (Exit::Bad, "bad list NoClass 0\n"),
    ),
    (
        &["receiver", "b c\\", "Lapp/R;"],
        (Exit::ReadFault, "cannot read b\\x20c\\x5c\n"),
    ),
    (&[], HELP),
    (&["receiver", "--json", "Lapp/R;"], HELP),
    (&["receiver", "a"], HELP),
    (&["receiver", "--count", "--json", "a", "Lapp/R;"], ACCEPTED),
    (
        &["receiver", "--json", "a", "--count"],
        (Exit::Bad, "bad list NoClass 0\n"),
    ),
    (&["receiver", "--count", "--x", "a", "Lapp/R;"], HELP),
    (&["verify", "l"], HELP),
    (&["verify", "--json", "--json", "l", "a"], HELP),
    (&["verify", "a"], HELP),
    (&["verify", "--x", "l", "a"], HELP),
    (&["check", "l", "a"], HELP),
    (&["check", "--x", "l", "a"], HELP),
    (
        &["check", "e", "l", "a"],
        (Exit::Bad, "bad certificate line 1\n"),
    ),
    (
        &["check", "e", "l", "e"],
        (Exit::Bad, "bad dex 0 Short 0\n"),
    ),
    (
        &["check", "x", "l", "a"],
        (Exit::ReadFault, "cannot read x\n"),
    ),
    (
        &["verify", "l", "a", "a"],
        (Exit::Bad, "bad link DuplicateClass Lapp/R; 1 0\n"),
    ),
    (
        &["verify", "l", "a", "e"],
        (Exit::Bad, "bad dex 1 Short 0\n"),
    ),
    (&["verify", "a", "e"], (Exit::Bad, "bad list Text\n")),
    (
        &["verify", "l", "--x"],
        (Exit::ReadFault, "cannot read --x\n"),
    ),
    (&SEVENTEEN, (Exit::Limit, "limit Files\n")),
];

// Seventeen DEX files, of which none is there.
const SEVENTEEN: [&str; 19] = [
    "verify", "x", "x", "x", "x", "x", "x", "x", "x", "x", "x", "x", "x", "x", "x", "x", "x", "x",
    "x",
];

fn texts(alloc: Global, words: &[&str]) -> Result<Vec<String>, AllocError> {
    words
        .iter()
        .map(|word| String::from_str(alloc, word))
        .try_collect(alloc)
}

// The file `a`, the empty file `e` and the list `l`, in pieces of 300 bytes; these calls fail.
fn shelf_with(alloc: Global, list: &str, file: &[u8], fail: &[u64]) -> Result<MemoryShelf, Fail> {
    let mut shelf = MemoryShelf::new(alloc, 300, fail.to_vec(alloc)?);
    shelf.add(String::from_str(alloc, "a")?, file.to_vec(alloc)?)?;
    shelf.add(String::from_str(alloc, "e")?, Vec::new(alloc))?;
    shelf.add(
        String::from_str(alloc, "l")?,
        list.as_bytes().to_vec(alloc)?,
    )?;
    Ok(shelf)
}

// The same with the list of the sample's receiver.
fn shelf_of(alloc: Global, file: &[u8], fail: &[u64]) -> Result<MemoryShelf, Fail> {
    shelf_with(alloc, LIST, file, fail)
}

// Whether a run ends so, and the sink then holds these bytes.
fn writes(
    alloc: Global,
    words: &[&str],
    mut shelf: MemoryShelf,
    mut sink: MemorySink,
    exit: Exit,
    bytes: &[u8],
) -> Result<bool, Fail> {
    let words = texts(alloc, words)?;
    let mut watchers = Vec::new(alloc);
    let ended = nosleep(alloc, &words, &mut shelf, &mut sink, &mut watchers);
    Ok(ended == exit && sink.bytes() == bytes)
}

fn is_told(
    alloc: Global,
    words: &[&str],
    shelf: MemoryShelf,
    sink: MemorySink,
    told: &Told,
) -> Result<bool, Fail> {
    writes(alloc, words, shelf, sink, told.0, told.1.as_bytes())
}

// Whether `verify` writes the sample's certificate, under a list that names it.
fn certifies(alloc: Global, list: &str, file: &[u8], fail: &[u64]) -> Result<bool, Fail> {
    let cert = certificate(alloc, list.as_bytes(), file, ROWS)?;
    let shelf = shelf_with(alloc, list, file, fail)?;
    let sink = MemorySink::new(alloc, 1000, 1000, Vec::new(alloc))?;
    writes(
        alloc,
        &["verify", "l", "a"],
        shelf,
        sink,
        Exit::Accept,
        &cert,
    )
}

// Whether `check` answers so to these rows over a file.
fn checks(alloc: Global, list: &str, file: &[u8], rows: &str, told: &Told) -> Result<bool, Fail> {
    let mut shelf = shelf_with(alloc, list, file, &[])?;
    let cert = certificate(alloc, LIST.as_bytes(), file, rows)?;
    shelf.add(String::from_str(alloc, "c")?, cert)?;
    let sink = MemorySink::new(alloc, 1000, 1000, Vec::new(alloc))?;
    is_told(alloc, &["check", "c", "l", "a"], shelf, sink, told)
}

#[test]
fn a_certificate_is_checked_line_by_line_and_rule_by_rule(rt: HostRuntime) -> Result<(), Fail> {
    let alloc = rt.alloc();
    let file = layout::dex(alloc, &R, WORKS)?;
    for (shows, rows, told) in CERTS.iter() {
        assert!(rt; checks(alloc, LIST, &file, rows, told)?, "{shows}");
    }
    Ok(())
}

#[test]
fn a_certificate_is_of_one_list_and_one_file(rt: HostRuntime) -> Result<(), Fail> {
    let alloc = rt.alloc();
    let file = layout::dex(alloc, &R, WORKS)?;
    let list = [LIST, "\n"].concat(alloc)?;
    let told = (Exit::Broken, "broken digest list\n");
    assert!(rt; checks(alloc, &list, &file, ROWS, &told)?);
    let leaking = layout::dex(alloc, &TRY, HANDLES)?;
    let told = (
        Exit::Broken,
        "unmet Lapp/R;->wl is C1 after Lapp/R;->onReceive\n",
    );
    assert!(rt; checks(alloc, LIST, &leaking, LEAKING, &told)?);
    Ok(())
}

// The same over a file with a sink that takes all.
fn tells(
    alloc: Global,
    words: &[&str],
    file: &[u8],
    fail: &[u64],
    told: &Told,
) -> Result<bool, Fail> {
    let sink = MemorySink::new(alloc, 1000, 1000, Vec::new(alloc))?;
    is_told(alloc, words, shelf_of(alloc, file, fail)?, sink, told)
}

// What the first row shows that is answered otherwise.
fn first_wrong(alloc: Global, rows: &[Row]) -> Result<Option<&'static str>, Fail> {
    for (shows, class, parts, told) in rows.iter() {
        let file = layout::dex(alloc, class, parts)?;
        if !tells(alloc, &["receiver", "a", class.name], &file, &[], told)? {
            return Ok(Some(*shows));
        }
    }
    Ok(None)
}

#[test]
fn a_receiver_is_accepted_or_reported(rt: HostRuntime) -> Result<(), Fail> {
    assert_eq!(rt; first_wrong(rt.alloc(), &JUDGED)?, None);
    Ok(())
}

#[test]
fn what_is_out_of_scope_is_refused_by_rule_and_place(rt: HostRuntime) -> Result<(), Fail> {
    assert_eq!(rt; first_wrong(rt.alloc(), &OUTSIDE)?, None);
    Ok(())
}

#[test]
fn bad_files_are_refused_by_name_and_place(rt: HostRuntime) -> Result<(), Fail> {
    assert_eq!(rt; first_wrong(rt.alloc(), &REFUSED)?, None);
    Ok(())
}

// Bytes put elsewhere in the file, from the start or the end, and the answer.
static CHANGES: [(usize, &[u8], &str); 3] = [
    (0, b"P", "bad dex 0 Magic\n"),
    (4, b"038", "bad dex 0 Version\n"),
    (40, b"V", "bad dex 0 Endian\n"),
];

fn put(file: &mut [u8], at: usize, bytes: &[u8]) {
    for (place, byte) in file.iter_mut().skip(at).zip(bytes) {
        *place = *byte;
    }
}

// What the first list shows that is answered otherwise.
fn first_wrong_list(alloc: Global, lists: &[List]) -> Result<Option<&'static str>, Fail> {
    let file = layout::dex(alloc, &R, WORKS)?;
    for (shows, list, told) in lists.iter() {
        let sink = MemorySink::new(alloc, 1000, 1000, Vec::new(alloc))?;
        let shelf = shelf_with(alloc, list, &file, &[])?;
        let is = match told {
            None => certifies(alloc, list, &file, &[])?,
            Some(told) => is_told(alloc, &["verify", "l", "a"], shelf, sink, told)?,
        };
        if !is {
            return Ok(Some(*shows));
        }
    }
    Ok(None)
}

#[test]
fn a_list_says_what_is_judged(rt: HostRuntime) -> Result<(), Fail> {
    assert_eq!(rt; first_wrong_list(rt.alloc(), &LISTS)?, None);
    Ok(())
}

#[test]
fn bad_lists_are_refused_by_name_and_place(rt: HostRuntime) -> Result<(), Fail> {
    assert_eq!(rt; first_wrong_list(rt.alloc(), &BAD_LISTS)?, None);
    Ok(())
}

#[test]
fn the_file_that_fails_is_named(rt: HostRuntime) -> Result<(), Fail> {
    let alloc = rt.alloc();
    let file = layout::dex(alloc, &R, WORKS)?;
    for call in 0..6u64 {
        let told = match call {
            0..=1 => (Exit::ReadFault, "cannot read l\n"),
            _ => UNREAD,
        };
        assert!(rt;
            tells(alloc, &["verify", "l", "a"], &file, &[call], &told)?,
            "call {call}"
        );
    }
    assert!(rt; certifies(alloc, LIST, &file, &[6])?);
    Ok(())
}

#[test]
fn changed_files_are_refused_by_name(rt: HostRuntime) -> Result<(), Fail> {
    let alloc = rt.alloc();
    let sample = layout::dex(alloc, &R, WORKS)?;
    for (at, bytes, text) in CHANGES.iter() {
        let mut file = sample.to_vec(alloc)?;
        put(&mut file, *at, bytes);
        assert!(rt;
            tells(alloc, &WORDS, &file, &[], &(Exit::Bad, text))?,
            "{text}"
        );
    }
    let Some((last, short)) = sample.split_last() else {
        return Err("a file".into());
    };
    let told = (Exit::Bad, "bad dex 0 FileSize\n");
    assert!(rt; tells(alloc, &WORDS, short, &[], &told)?);
    let mut file = short.to_vec(alloc)?;
    file.push(*last ^ 1)?;
    let told = (Exit::Bad, "bad dex 0 Checksum\n");
    assert!(rt; tells(alloc, &WORDS, &file, &[], &told)?);
    Ok(())
}

#[test]
fn a_wrong_signature_is_told_from_a_wrong_checksum(rt: HostRuntime) -> Result<(), Fail> {
    let mut file = layout::dex(rt.alloc(), &R, WORKS)?;
    put(&mut file, 12, b"another signature...");
    if file.len() < 12 {
        return Err("a header".into());
    }
    let (_, signed) = file.split_at(12);
    let sum = adler32(signed).to_le_bytes();
    put(&mut file, 8, &sum);
    let told = (Exit::Bad, "bad dex 0 Signature\n");
    assert!(rt; tells(rt.alloc(), &WORDS, &file, &[], &told)?);
    Ok(())
}

#[test]
fn at_most_64_calls_make_a_lock(rt: HostRuntime) -> Result<(), Fail> {
    for (calls, told) in [(64, ACCEPTED), (65, (Exit::Limit, "limit Sites\n"))] {
        let mut parts = vec![in rt.alloc(); MAKE; calls]?;
        parts.push(RETURN)?;
        let file = layout::dex(rt.alloc(), &R, &parts)?;
        assert!(rt; tells(rt.alloc(), &WORDS, &file, &[], &told)?, "{calls}");
    }
    Ok(())
}

#[test]
fn the_stored_sample_is_laid_out(rt: HostRuntime) -> Result<(), Fail> {
    let stored: Vec<u8> = hex::decode(rt.alloc(), sample::RECEIVER.concat(rt.alloc())?.as_bytes())?;
    assert!(rt; layout::dex(rt.alloc(), &R, WORKS)? == stored);
    Ok(())
}

#[test]
fn answers_come_by_words_and_file(rt: HostRuntime) -> Result<(), Fail> {
    let file = layout::dex(rt.alloc(), &R, WORKS)?;
    for (words, told) in ANSWERS.iter() {
        assert!(rt; tells(rt.alloc(), words, &file, &[], told)?, "{words:?}");
    }
    Ok(())
}

#[test]
fn faults_of_the_shelf_are_answered(rt: HostRuntime) -> Result<(), Fail> {
    let file = layout::dex(rt.alloc(), &R, WORKS)?;
    for call in 0..5u64 {
        let told = if call < 4 { UNREAD } else { ACCEPTED };
        assert!(rt;
            tells(rt.alloc(), &WORDS, &file, &[call], &told)?,
            "call {call}"
        );
    }
    Ok(())
}

#[test]
fn faults_of_the_sink_are_answered(rt: HostRuntime) -> Result<(), Fail> {
    let alloc = rt.alloc();
    let file = layout::dex(alloc, &R, WORKS)?;
    // Room, the longest piece, the call that fails, what is written.
    for (room, piece, fail, text) in [(1000, 3, 1, "acc"), (5, 4, 9, "accep")] {
        let sink = MemorySink::new(alloc, room, piece, [fail].to_vec(alloc)?)?;
        let shelf = shelf_of(alloc, &file, &[])?;
        assert!(rt;
            is_told(alloc, &WORDS, shelf, sink, &(Exit::WriteFault, text))?,
            "{text}"
        );
    }
    Ok(())
}

// Reads of at most four bytes, one after the other: the file, the place, and what comes. The second one is at the place
// where the first one stands in another file.
static READS: [(&str, u64, &[u8]); 5] = [
    ("f", 0, b"hell"),
    ("g", 4, b"ds"),
    ("f", 4, b"o"),
    ("f", 5, b""),
    ("f", 1, b"ello"),
];

#[test]
fn real_files_are_read_in_pieces(rt: HostRuntime) -> Result<(), Fail> {
    fs::write(&rt, "f", "hello")?;
    fs::write(&rt, "g", "worlds")?;
    let mut shelf = FileShelf::new(rt.alloc(), &rt);
    let mut into = *b"....";
    for (name, at, bytes) in READS.iter() {
        assert_eq!(rt; shelf.read(name, *at, &mut into), Ok(bytes.len()));
        assert!(rt; into.starts_with(bytes), "{name} {at}");
    }
    assert_eq!(rt; shelf.read("absent", 0, &mut into), Err(Failed));
    fs::remove_file(&rt, "f")?;
    fs::remove_file(&rt, "g")?;
    Ok(())
}

#[test]
fn standard_output_takes_pieces(rt: HostRuntime) {
    let mut out = Output::new(io::writer(&rt));
    assert_eq!(rt; out.write(b"written\n"), Ok(8));
    assert_eq!(rt; out.write(b""), Ok(0));
}
