//! Words of bits at nodes, taken along links until the end of each link has all bits of its start: fast by
//! a list of nodes, exact by a sweep.
ghost use Rattle.std.specs.Prelude.{◌≡◌, ◌<◌, List, Contains, IfOk, length};
ghost use Rattle.std.specs.List.{All};
ghost use Rattle.call_reach.specs.declared.links.Link.{Link};
ghost use Rattle.call_reach.specs.Spread.{IsWithin, AreWithin, Turn, Keeps, IsPassed, AllPassed, IsSpread};

use crate::agenda::Agenda;
use crate::links::{Link, Links};
use std::alloc::{AllocError, Global};

// The bits of a link's start into its end; whether that changed the end.
fn pass(words: &mut [u64], link: Link) -> bool
    requires { IsWithin (length words.old) link }
    ensures { (links : List Link) → Contains links link → Turn links (IsPassed link) words.old words.new result }
{
    let to = words[link.to as usize];
    let joined = to | words[link.from as usize];
    if joined == to {
        return false;
    }
    words[link.to as usize] = joined;
    true
}

fn sweep(links: &Links, words: &mut [u64]) -> bool
    requires { AreWithin (length words.old) links.now }
    ensures { Turn links.now (AllPassed links.now) words.old words.new result }
{
    let mut changed = false;
    for place in 0..links.len() {
        changed |= pass(words, links.get(place));
    }
    changed
}

// The nodes that have a bit.
fn begin(agenda: &mut Agenda, words: &[u64]) -> Result<(), AllocError> {
    for node in 0..u32::MAX {
        match words.get(node as usize) {
            Some(0) => {}
            Some(_) => agenda.add(node)?,
            None => return Ok(()),
        }
    }
    Ok(())
}

fn pass_on(
    links: &Links,
    words: &mut [u64],
    agenda: &mut Agenda,
    place: usize,
) -> Result<(), AllocError>
    requires within { AreWithin (length words.old) links.now }
    requires place { place < length links.now }
    ensures { Keeps links.now words.old words.new }
{
    let link = links.get(place);
    if pass(words, link) {
        agenda.add(link.to)?;
    }
    Ok(())
}

// All links from a node.
fn leave(links: &Links, words: &mut [u64], agenda: &mut Agenda, node: u32) -> Result<(), AllocError>
    requires { AreWithin (length words.old) links.now }
    ensures { Keeps links.now words.old words.new }
{
    let mut place = links.first(node) as usize;
    for _step in 0..links.len() {
        if place >= links.len() {
            return Ok(());
        }
        pass_on(links, words, agenda, place)?;
        place = links.next(place) as usize;
    }
    Ok(())
}

// Most of the work: a node is looked at again only where it got more bits.
fn approach(alloc: Global, links: &Links, words: &mut [u64]) -> Result<(), AllocError>
    requires { AreWithin (length words.old) links.now }
    ensures { Keeps links.now words.old words.new }
{
    let mut agenda = Agenda::new(alloc, words.len())?;
    begin(&mut agenda, words)?;
    for _step in 0..u64::MAX {
        let Some(node) = agenda.take() else {
            return Ok(());
        };
        leave(links, words, &mut agenda, node)?;
    }
    Ok(())
}

// Sweeps until one changes nothing.
fn close(links: &Links, words: &mut [u64])
    requires { AreWithin (length words.old) links.now }
    ensures { IsSpread links.now words.old words.new }
{
    let mut changed = true;
    while changed {
        changed = sweep(links, words);
    }
}

/// Each node has the bits of all nodes from which links lead to it, and its own.
pub(crate) fn spread(alloc: Global, links: &Links, words: &mut [u64]) -> Result<(), AllocError>
    requires { AreWithin (length words.old) links.now }
    ensures { IfOk result (λ done. IsSpread links.now words.old words.new) }
{
    approach(alloc, links, words)?;
    close(links, words);
    Ok(())
}
