//! Lower bounds on the costs of closed sets, from an amount for each version of an item.
//!
//! The least distance of a query is the least cost of a closed set of its updates. A flow of a network shows that no closed
//! set costs less, but the network has to be built for each query. These laws need neither. Give each version of an item an
//! amount that is at most the cost of the version, such that no update decreases the sum of the amounts of the current
//! versions. Then every closed set costs at least the sum at the start: as the set contains the earlier writers of its members'
//! items, these overwrite the same versions as in the full commit order. So the sum does not fall, and at the end it is at
//! most the cost. One induction proves it, and one pass in commit order checks the two conditions.
//!
//! The same pass finds the smallest set of least cost. If a version has less than it costs, a closed set that keeps this
//! version costs more than the bound. So each closed set that costs the bound has the next writer of the item if it has the
//! earlier ones. Such updates are marked. A marked set that is closed and costs the bound is the smallest set.
//!
//! Reads restrict the closed sets further. A closed set that contains a reader of a version contains the writer of the version,
//! so a reader may *raise* the amount, at most to the cost. A closed set that contains the next writer of the item contains the
//! reader, so a reader may take a *loan*: it decreases the sum, and the next writer, which replaces the amount, repays it. So
//! the sum that no update may decrease is that of the amounts less the loans. A reader that raises an amount is in
//! every closed set that costs the bound and has the earlier writers; so is a writer that repays a loan of a member.
//!
//! An amount belongs to a version and not to an edge between two updates. Rejected: amounts for edges, as in a flow, which
//! need the pairs of the conflict order and conservation at each update. Amounts are natural numbers. A user that needs amounts
//! below zero adds a constant to every cost (`extra` in `LawOfSet`).
#![tactic(auto)]

mod laws;

pub use laws::{bound_after_update, bound_at_end, bound_at_start, marked_set_is_smallest};
