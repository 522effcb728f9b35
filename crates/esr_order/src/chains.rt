//! The writers of an item in commit order, with the values that they left: the versions that a query's reads are
//! compared with. They are gathered from the last to the first, and reversed once.
ghost use Rattle.std.specs.Prelude.{◌≡◌, [], IfOk, OnOk, map};
ghost use Rattle.esr_order.specs.Chains.{latest_writer, with_write, reversed_chain, links_view};

use crate::links::Links;
use std::alloc::{AllocError, Global};

impl Links {
    /// Creates the chain of an item that no update wrote.
    pub(crate) fn empty(alloc: Global) -> Links
        ensures { links_view result ≡ record { writers = []; values = [] } }
    {
        Links {
            writers: Vec::new(alloc),
            values: Vec::new(alloc),
            latest: None,
        }
    }

    /// Returns an empty chain with capacity for this many writers. The chains of many items grow in turns, and the
    /// unused capacity of each would add up.
    pub(crate) fn with_capacity_for(alloc: Global, writers: usize) -> Result<Links, AllocError>
        ensures { IfOk result (λ links. links_view links ≡ record { writers = []; values = [] }) }
    {
        Ok(Links {
            writers: Vec::with_capacity(alloc, writers)?,
            values: Vec::with_capacity(alloc, writers)?,
            latest: None,
        })
    }
}

/// Returns the writer that was added last to a chain.
pub fn latest_writer(links: &Links) -> Option<u32>
    ensures { result ≡ latest_writer (links_view links.now) }
{
    links.latest
}

/// Adds a write of the update at a position to a chain in reverse order, unless it has a later write of that update.
pub fn prepend_write(links: &mut Links, position: u32, value: i64) -> Result<(), AllocError>
    ensures { OnOk result (links_view links.new ≡ with_write (links_view links.old) position value) }
{
    if latest_writer(links) != Some(position) {
        links.values.push(value)?;
        links.writers.push(position)?;
        links.latest = Some(position);
    }
    Ok(())
}

fn reverse_chain(links: &mut Links)
    ensures { links_view links.new ≡ reversed_chain (links_view links.old) }
{
    links.writers.reverse();
    links.values.reverse();
    links.latest = links.writers.last().copied();
}

/// Turns chains round, each for itself.
pub fn reverse_all(chains: &mut [Links])
    ensures { map links_view chains.new ≡ map reversed_chain (map links_view chains.old) }
{
    for links in chains {
        reverse_chain(links);
    }
}
