//! What the watchers write and keep.
use crate::{CountWatcher, JsonWatcher};
use ns_base::{Event, Untold, Watcher};
use ns_memory::MemorySink;
use std::test::Fail;

// Two files were read, and one lock may be held with two statuses.
static RUN: [Event; 5] = [
    Event::Read { file: 0, bytes: 50 },
    Event::Read {
        file: 4_294_967_295,
        bytes: 18_446_744_073_709_551_615,
    },
    Event::Held {
        component: 0,
        callback: 1,
        lock: 2,
        status: 3,
    },
    Event::Held {
        component: 255,
        callback: 7,
        lock: 63,
        status: 7,
    },
    Event::Ended { exit: 1 },
];

static LINES: &[u8] = b"{\"bytes\":50,\"event\":\"read\",\"file\":0}
{\"bytes\":18446744073709551615,\"event\":\"read\",\"file\":4294967295}
{\"callback\":1,\"component\":0,\"event\":\"held\",\"lock\":2,\"status\":3}
{\"callback\":7,\"component\":255,\"event\":\"held\",\"lock\":63,\"status\":7}
{\"event\":\"ended\",\"exit\":1}
";

// Tells the run event by event, up to the first that is not told.
fn tell_run<W: Watcher>(watcher: &mut W) -> Result<(), Untold> {
    for event in RUN.iter() {
        watcher.tell(event)?;
    }
    Ok(())
}

#[test]
fn each_event_is_a_line_of_json(rt: HostRuntime) -> Result<(), Fail> {
    let alloc = rt.alloc();
    // three bytes a call, and ten bytes at the last room of the second line
    for (room, piece, told) in [
        (4096, 3, 5),
        (4096, 4096, 5),
        (47, 3, 1),
        (37, 4096, 1),
        (36, 3, 0),
    ] {
        let sink = MemorySink::new(alloc, room, piece, Vec::new(alloc))?;
        let mut watcher = JsonWatcher::new(alloc, sink);
        let answer = tell_run(&mut watcher);
        assert_eq!(rt; watcher.told().len(), told, "room {room}");
        assert_eq!(rt; answer.is_ok(), told == 5, "room {room}");
        assert!(rt; RUN.as_slice().starts_with(watcher.told()), "room {room}");
        assert_eq!(rt; watcher.kind(), 1);
        let all = LINES.split_at(room.min(LINES.len())).0;
        assert_eq!(rt; watcher.sink().bytes(), all, "room {room}");
    }
    Ok(())
}

#[test]
fn the_end_has_a_line_of_counts(rt: HostRuntime) -> Result<(), Fail> {
    let alloc = rt.alloc();
    let text = b"reads 2 helds 2 exit 1\n".as_slice();
    for (room, piece, told) in [(4096, 3, 5), (23, 4096, 5), (22, 3, 4), (0, 3, 4)] {
        let sink = MemorySink::new(alloc, room, piece, Vec::new(alloc))?;
        let mut watcher = CountWatcher::new(alloc, sink);
        let answer = tell_run(&mut watcher);
        assert_eq!(rt; watcher.told().len(), told, "room {room}");
        assert_eq!(rt; answer.is_ok(), told == 5, "room {room}");
        assert!(rt; RUN.as_slice().starts_with(watcher.told()), "room {room}");
        assert_eq!(rt; watcher.kind(), 2);
        let all = text.split_at(room.min(text.len())).0;
        assert_eq!(rt; watcher.sink().bytes(), all, "room {room}");
    }
    Ok(())
}
