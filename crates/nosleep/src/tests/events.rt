//! Who is told what of a run.
use super::rows::{HANDLES, R, TRY, WORKS};
use super::{layout, shelf_of, texts};
use crate::top::nosleep;
use ns_base::{Event, Exit, Watcher};
use ns_memory::{MemorySink, MemoryWatcher};
use std::alloc::Global;
use std::test::Fail;
use watchers::{CountWatcher, JsonWatcher};

// The exit, and what a watcher of kind 1 and one of kind 2 were told.
#[derive(Drop)]
struct Run {
    exit: Exit,
    json: Vec<Event>,
    count: Vec<Event>,
}

// A run whose sink has this room, with watchers that fail at these calls.
fn watch(
    alloc: Global,
    words: &[&str],
    file: &[u8],
    room: usize,
    json: &[u64],
    count: &[u64],
) -> Result<Run, Fail> {
    let words = texts(alloc, words)?;
    let mut shelf = shelf_of(alloc, file, &[])?;
    let mut sink = MemorySink::new(alloc, room, 1000, Vec::new(alloc))?;
    let mut watchers: Vec<Box<dyn Watcher>> = Vec::new(alloc);
    let json = MemoryWatcher::new(alloc, 1, json.to_vec(alloc)?);
    watchers.push(Box::new(alloc, json)?)?;
    let count = MemoryWatcher::new(alloc, 2, count.to_vec(alloc)?);
    watchers.push(Box::new(alloc, count)?)?;
    let exit = nosleep(alloc, &words, &mut shelf, &mut sink, &mut watchers);
    match watchers.as_slice() {
        [json, count] => Ok(Run {
            exit,
            json: json.told().to_vec(alloc)?,
            count: count.told().to_vec(alloc)?,
        }),
        _ => Err("two watchers".into()),
    }
}

// The list and a file with this many bytes were read, and the lock may be held with two statuses.
fn reported(bytes: usize) -> [Event; 5] {
    [
        Event::Read { file: 0, bytes: 50 },
        Event::Read {
            file: 1,
            bytes: bytes as u64,
        },
        Event::Held {
            component: 0,
            callback: 0,
            lock: 0,
            status: 2,
        },
        Event::Held {
            component: 0,
            callback: 0,
            lock: 0,
            status: 7,
        },
        Event::Ended { exit: 1 },
    ]
}

const BOTH: [&str; 5] = ["verify", "--json", "--count", "l", "a"];

#[test]
fn both_watchers_write_what_was_read_and_found(rt: HostRuntime) -> Result<(), Fail> {
    let alloc = rt.alloc();
    let file = layout::dex(alloc, &TRY, HANDLES)?;
    let run = watch(alloc, &BOTH, &file, 1000, &[], &[])?;
    assert_eq!(rt; run.exit, Exit::Reports);
    assert_eq!(rt; run.json.as_slice(), reported(file.len()).as_slice());
    assert_eq!(rt; run.count.as_slice(), reported(file.len()).as_slice());

    let sink = MemorySink::new(alloc, 1000, 1000, Vec::new(alloc))?;
    let mut json = JsonWatcher::new(alloc, sink);
    let sink = MemorySink::new(alloc, 1000, 1000, Vec::new(alloc))?;
    let mut count = CountWatcher::new(alloc, sink);
    for event in run.json.iter() {
        assert!(rt; json.tell(event).is_ok());
        assert!(rt; count.tell(event).is_ok());
    }
    let bytes = file.len();
    let lines = format!(in alloc;
        "{{\"bytes\":50,\"event\":\"read\",\"file\":0}}
{{\"bytes\":{bytes},\"event\":\"read\",\"file\":1}}
{{\"callback\":0,\"component\":0,\"event\":\"held\",\"lock\":0,\"status\":2}}
{{\"callback\":0,\"component\":0,\"event\":\"held\",\"lock\":0,\"status\":7}}
{{\"event\":\"ended\",\"exit\":1}}
"
    )?;
    assert_eq!(rt; json.sink().bytes(), lines.as_bytes());
    assert_eq!(rt;
        count.sink().bytes(),
        b"reads 2 helds 2 exit 1\n".as_slice()
    );
    Ok(())
}

#[test]
fn a_fault_of_one_watcher_is_answered_and_the_other_told_all(rt: HostRuntime) -> Result<(), Fail> {
    let alloc = rt.alloc();
    let file = layout::dex(alloc, &TRY, HANDLES)?;
    let all = reported(file.len());
    for call in 0..5usize {
        let run = watch(alloc, &BOTH, &file, 1000, &[call as u64], &[])?;
        assert_eq!(rt; run.exit, Exit::WatcherFault, "call {call}");
        assert_eq!(rt; run.json.len(), call);
        assert!(rt; all.as_slice().starts_with(&run.json), "call {call}");
        assert_eq!(rt; run.count.as_slice(), all.as_slice(), "call {call}");
    }
    Ok(())
}

// Words, the room of the sink, the exit, and how many events each watcher was told; one of kind 2 would fail.
static TOLD: [(&[&str], usize, Exit, usize, usize); 9] = [
    (&["verify", "l", "a"], 1000, Exit::Accept, 0, 0),
    (&["verify", "--json", "l", "a"], 1000, Exit::Accept, 3, 0),
    (
        &["verify", "--count", "l", "a"],
        1000,
        Exit::WatcherFault,
        0,
        0,
    ),
    (
        &["receiver", "--json", "a", "Lapp/R;"],
        1000,
        Exit::Accept,
        2,
        0,
    ),
    (
        &["verify", "--json", "l", "--x"],
        1000,
        Exit::ReadFault,
        2,
        0,
    ),
    (&["verify", "--json", "l", "a", "e"], 1000, Exit::Bad, 4, 0),
    (&["check", "--json", "e", "l", "a"], 1000, Exit::Bad, 4, 0),
    (&["verify", "--json", "l", "a"], 3, Exit::WriteFault, 0, 0),
    (
        &["verify", "--json", "--json", "l", "a"],
        1000,
        Exit::Usage,
        0,
        0,
    ),
];

#[test]
fn only_chosen_watchers_are_told_and_after_the_text(rt: HostRuntime) -> Result<(), Fail> {
    let file = layout::dex(rt.alloc(), &R, WORKS)?;
    for (words, room, exit, json, count) in TOLD.iter() {
        let run = watch(rt.alloc(), words, &file, *room, &[], &[0])?;
        assert_eq!(rt; run.exit, *exit, "{words:?}");
        assert_eq!(rt; run.json.len(), *json, "{words:?}");
        assert_eq!(rt; run.count.len(), *count, "{words:?}");
    }
    Ok(())
}
