//! Short lists.
use crate::Few;
use std::test::Fail;

#[test]
fn short_lists_keep_their_numbers(rt: HostRuntime) -> Result<(), Fail> {
    let mut few = Few::new();
    for number in 0..5u32 {
        assert_eq!(rt; few.get(number as usize), None);
        few.push(rt.alloc(), number)?;
        assert_eq!(rt; few.get(number as usize), Some(number));
        assert_eq!(rt; few.get(0), Some(0));
    }
    assert_eq!(rt; few.len(), 5);
    Ok(())
}
