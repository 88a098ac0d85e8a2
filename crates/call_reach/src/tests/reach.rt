//! What reach and stores stand on: bits that links take on. Six nodes, links in the order in which they are found.
ghost use Rattle.std.specs.Prelude.{◌<◌, IfOk, length};
ghost use Rattle.call_reach.specs.Spread.{AreWithin};

use crate::links::{Link, Links};
use crate::spread::spread;
use std::alloc::{AllocError, Global};
use std::test::Fail;

// A link between two of the six nodes.
fn add_link(links: &mut Links, from: u32, to: u32) -> Result<(), AllocError>
    requires { AreWithin 6 links.old }
    ensures { IfOk result (λ done. AreWithin 6 links.new) }
{
    if from < 6 && to < 6 {
        links.add(Link { from, to })?;
    }
    Ok(())
}

fn linked(alloc: Global, pairs: &[(u32, u32)]) -> Result<Links, AllocError>
    ensures { IfOk result (AreWithin 6) }
{
    let mut links = Links::new(alloc, 6)?;
    for i in 0..pairs.len() {
        let (from, to) = pairs[i];
        add_link(&mut links, from, to)?;
    }
    Ok(links)
}

fn spread_along(
    alloc: Global,
    pairs: &[(u32, u32)],
    start: [u64; 6],
) -> Result<[u64; 6], AllocError> {
    let links = linked(alloc, pairs)?;
    let mut words = start;
    spread(alloc, &links, &mut words)?;
    Ok(words)
}

#[test]
fn bits_go_along_links_and_nowhere_else(rt: HostRuntime) -> Result<(), Fail> {
    let alloc = rt.alloc();
    let chain = spread_along(alloc, &[(0, 1), (1, 2), (2, 3)], [1, 0, 0, 0, 0, 0])?;
    assert_eq!(rt; chain, [1, 1, 1, 1, 0, 0]);
    let other_order = spread_along(alloc, &[(2, 3), (1, 2), (0, 1)], [1, 0, 0, 0, 0, 0])?;
    assert_eq!(rt; other_order, [1, 1, 1, 1, 0, 0]);
    let cycle = spread_along(alloc, &[(1, 2), (2, 3), (3, 1)], [0, 0, 1, 0, 0, 4])?;
    assert_eq!(rt; cycle, [0, 1, 1, 1, 0, 4]);
    let itself = spread_along(alloc, &[(0, 0), (5, 5)], [2, 0, 0, 0, 0, 0])?;
    assert_eq!(rt; itself, [2, 0, 0, 0, 0, 0]);
    let nobody_calls = spread_along(alloc, &[(4, 5), (5, 0)], [0, 1, 0, 0, 0, 0])?;
    assert_eq!(rt; nobody_calls, [0, 1, 0, 0, 0, 0]);
    Ok(())
}

#[test]
fn two_ways_that_meet_join_their_bits(rt: HostRuntime) -> Result<(), Fail> {
    let alloc = rt.alloc();
    let highest = 1 << 63;
    let joined = spread_along(
        alloc,
        &[(0, 2), (1, 2), (2, 3), (2, 3), (3, 4)],
        [1, highest, 4, 0, 0, 8],
    )?;
    let all = highest + 5;
    assert_eq!(rt; joined, [1, highest, all, all, all, 8]);
    Ok(())
}
