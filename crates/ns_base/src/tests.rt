//! Lists of numbers come back as they were put in.
use crate::Lists;
use std::test::Fail;

#[test]
fn lists_come_back_as_they_were(rt: HostRuntime) -> Result<(), Fail> {
    let mut lists: Lists<u32> = Lists::new(rt.alloc());
    assert!(rt; lists.is_empty());
    lists.push(&[7, 8, 9])?;
    lists.push(&[])?;
    lists.push(&[4_294_967_295])?;
    assert_eq!(rt; lists.len(), 3);
    assert_eq!(rt; lists.get(0), [7, 8, 9].as_slice());
    assert_eq!(rt; lists.get(1), [].as_slice());
    assert_eq!(rt; lists.get(2), [4_294_967_295].as_slice());
    Ok(())
}
