//! Tags read back from a table of cells.
use crate::{Tag, TagTable};
use ns_base::{LockNo, MethodNo};
use std::test::Fail;

// Four instructions with two registers, and a method that is not reached.
#[test]
fn tags_are_read_by_their_cells(rt: HostRuntime) -> Result<(), Fail> {
    let alloc = rt.alloc();
    let cells = vec![in alloc; 0, 1, 2, 3, 4, 5, 68, 69, 132, 133, 196, 1]?;
    let cells = vec![in alloc; cells, Vec::new(alloc)]?;
    let table = TagTable::new(vec![in alloc; 2, 0]?, cells);
    for (method, index, register, want) in [
        (0, 0, 0, Tag::Bot),
        (0, 0, 1, Tag::Zero),
        (0, 0, 2, Tag::Solid),
        (0, 1, 0, Tag::Any),
        (0, 1, 1, Tag::Mixed),
        (0, 1, 2, Tag::Held(LockNo(0))),
        (0, 2, 0, Tag::Held(LockNo(63))),
        (0, 2, 1, Tag::Field(LockNo(0))),
        (0, 2, 2, Tag::Field(LockNo(63))),
        (0, 3, 0, Tag::New(0)),
        (0, 3, 1, Tag::New(63)),
        (0, 0, 3, Tag::Bot),
        (0, 4, 0, Tag::Bot),
        (1, 0, 0, Tag::Bot),
        (2, 0, 0, Tag::Bot),
    ] {
        assert_eq!(rt; table.tag(MethodNo(method), index, register), want);
    }
    Ok(())
}
