//! The calls of a session, line by line.
//!
//! A call has a separate type and is not a line of a script, so the code that runs a block has no unreachable case. A
//! begin is one variant with a kind: its event alone depends on it. Names are resolved when the plan is made: a call
//! holds the place of its transaction's begin in the block, so running a line takes one access to the replies.

ghost use Rattle.std.specs.Prelude.{◌≡◌, option_map};
ghost use Rattle.esr_report.specs.Subjects.{named_by};
ghost use Rattle.esr_plan.specs.Calls.{begin_event, command_of, event_by, number_by};
ghost use Rattle.esr_plan.specs.Plan.{new_name};
ghost use Rattle.esr_plan.specs.Blocks.{number_in};
ghost use Rattle.esr_plan.specs.Text.{subject_of};

use esr_history::{Event, Reply, TxnId, TxnKind};
use esr_items::ItemId;
use esr_report::ReplyNames;

/// A transaction that a line names.
#[derive(Clone, Copy)]
pub struct Caller<'a> {
    pub name: &'a str,
    /// The place in the block of the begin of the transaction, if it precedes the call.
    pub begin: Option<usize>,
}

/// An item that a line names. The number of an undeclared item is out of range.
#[derive(Clone, Copy)]
pub struct Operand<'a> {
    pub name: &'a str,
    pub item: ItemId,
}

/// A command of a block, with its names as text of the file.
#[derive(Clone, Copy)]
pub enum Call<'a> {
    Begin {
        name: &'a str,
        kind: TxnKind,
        limit: u64,
    },
    Read {
        txn: Caller<'a>,
        item: Operand<'a>,
    },
    Write {
        txn: Caller<'a>,
        item: Operand<'a>,
        value: i64,
    },
    Commit {
        txn: Caller<'a>,
    },
    Abort {
        txn: Caller<'a>,
    },
}

impl<'a> Call<'a> {
    /// Returns the name of the transaction that the call begins.
    pub fn new_name(&self) -> Option<&'a str>
        ensures { option_map (λ name. name.now) result ≡ new_name (command_of self.now) }
    {
        match self {
            Call::Begin { name, .. } => Some(name),
            _ => None,
        }
    }

    /// Returns the names in the call.
    pub fn subject(&self) -> ReplyNames<'a>
        ensures { named_by result ≡ subject_of (command_of self.now) }
    {
        let none = ReplyNames {
            txn: "",
            item: "",
            value: 0,
        };
        match self {
            Call::Begin { name, .. } => ReplyNames { txn: name, ..none },
            Call::Read { txn, item } => ReplyNames {
                txn: txn.name,
                item: item.name,
                value: 0,
            },
            Call::Write { txn, item, value } => ReplyNames {
                txn: txn.name,
                item: item.name,
                value: *value,
            },
            Call::Commit { txn } => ReplyNames {
                txn: txn.name,
                ..none
            },
            Call::Abort { txn } => ReplyNames {
                txn: txn.name,
                ..none
            },
        }
    }
}

/// Returns the number that a begin got, from its reply.
pub fn number_in(reply: Reply) -> Option<u32>
    ensures { result ≡ number_in reply }
{
    match reply {
        Reply::Begun(number) => Some(number.0),
        _ => None,
    }
}

/// Returns the caller's transaction, from the replies to the calls before: 0 if it has not begun.
fn transaction(replies: &[Reply], caller: Caller<'_>) -> TxnId
    ensures { result ≡ number_by replies.now caller.entry.begin }
{
    let Some(place) = caller.begin else {
        return TxnId(0);
    };
    let Some(reply) = replies.get(place) else {
        return TxnId(0);
    };
    TxnId(number_in(*reply).unwrap_or(0))
}

/// Returns the event that begins a transaction of the kind.
fn begin_event(kind: TxnKind, limit: u64) -> Event
    ensures { result ≡ begin_event kind limit }
{
    match kind {
        TxnKind::Update => Event::BeginUpdate { limit },
        TxnKind::Query => Event::BeginQuery {
            limit,
            strict: false,
        },
        TxnKind::StrictQuery => Event::BeginQuery {
            limit,
            strict: true,
        },
    }
}

/// Returns the event of a call, given the last replies to the calls of its block before it.
pub fn event_of(replies: &[Reply], call: Call<'_>) -> Event
    ensures { result ≡ event_by replies.now call.entry }
{
    match call {
        Call::Begin { kind, limit, .. } => begin_event(kind, limit),
        Call::Read { txn, item } => Event::Read {
            txn: transaction(replies, txn),
            item: item.item,
        },
        Call::Write { txn, item, value } => Event::Write {
            txn: transaction(replies, txn),
            item: item.item,
            value,
        },
        Call::Commit { txn } => Event::Commit {
            txn: transaction(replies, txn),
        },
        Call::Abort { txn } => Event::Abort {
            txn: transaction(replies, txn),
        },
    }
}
