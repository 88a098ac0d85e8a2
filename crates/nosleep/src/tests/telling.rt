//! Who is told where another watcher fails.
use crate::telling::{Told, tell_all, tell_one};
use ns_base::{Event, Watcher};
use ns_memory::MemoryWatcher;
use std::test::Fail;

// Two files were read, and one lock may be held with two statuses.
static RUN: [Event; 5] = [
    Event::Read { file: 0, bytes: 50 },
    Event::Read {
        file: 4_294_967_295,
        bytes: 18_446_744_073_709_551_615,
    },
    Event::Held {
        component: 0,
        callback: 1,
        lock: 2,
        status: 3,
    },
    Event::Held {
        component: 255,
        callback: 7,
        lock: 63,
        status: 7,
    },
    Event::Ended { exit: 1 },
];

#[test]
fn a_box_that_fails_was_told_the_events_before(rt: HostRuntime) -> Result<(), Fail> {
    let alloc = rt.alloc();
    // the call that fails, and what the box was told after a first and a second time
    for (fail, first, second) in [
        (0, 0, 5),
        (1, 1, 6),
        (4, 4, 9),
        (5, 5, 5),
        (7, 5, 7),
        (99, 5, 10),
    ] {
        let mut watcher: Box<dyn Watcher> = Box::new(
            alloc,
            MemoryWatcher::new(alloc, 1, [fail].to_vec(alloc)?),
        )?;
        let answer = tell_one(&mut watcher, RUN.as_slice());
        assert_eq!(rt; answer.is_ok(), fail > 4, "call {fail}");
        assert_eq!(rt; watcher.told().len(), first, "call {fail}");
        assert!(rt; RUN.as_slice().starts_with(watcher.told()), "call {fail}");
        let again = tell_one(&mut watcher, RUN.as_slice());
        assert_eq!(rt; again.is_ok(), fail < 5 || fail > 9, "call {fail}");
        assert_eq!(rt; watcher.told().len(), second, "call {fail}");
    }
    Ok(())
}

#[test]
fn each_chosen_watcher_is_told_whatever_another_answers(rt: HostRuntime) -> Result<(), Fail> {
    let alloc = rt.alloc();
    let mut watchers: Vec<Box<dyn Watcher>> = Vec::new(alloc);
    watchers.push(Box::new(alloc, MemoryWatcher::new(alloc, 2, Vec::new(alloc)))?)?;
    watchers.push(Box::new(alloc, MemoryWatcher::new(alloc, 1, [0].to_vec(alloc)?))?)?;
    watchers.push(Box::new(alloc, MemoryWatcher::new(alloc, 1, [3].to_vec(alloc)?))?)?;
    watchers.push(Box::new(alloc, MemoryWatcher::new(alloc, 1, Vec::new(alloc)))?)?;
    // the kinds that are wanted, how many fail, and how much each was told in all
    let rows: [(&[u8], u64, [usize; 4]); 4] = [
        (b"", 0, [0, 0, 0, 0]),
        (b"\x01", 2, [0, 0, 3, 5]),
        (b"\x02\x02", 0, [5, 0, 3, 5]),
        (b"\x02\x01\x03", 0, [10, 5, 8, 10]),
    ];
    for (kinds, failed, told) in rows.iter() {
        let answer = tell_all(&mut watchers, kinds, RUN.as_slice());
        assert_eq!(rt;
            answer,
            Told {
                failed: *failed,
                starved: 0
            }
        );
        for (watcher, count) in watchers.iter().zip(told.iter()) {
            assert_eq!(rt; watcher.told().len(), *count);
        }
    }
    Ok(())
}
