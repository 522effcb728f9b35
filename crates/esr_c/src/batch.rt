//! Many events in one call, for a caller that holds a lock around it: they are executed one after another, as by a
//! call for each.

ghost use Rattle.std.specs.Prelude.{◌≡◌, ◌≢◌, ◌≤◌, None, length, IfOk, IfErr, OnErr, IsErrOf};
ghost use Rattle.esr_history.specs.Events.{is_refusal};
ghost use Rattle.esr_c.specs.Answers.{status_number};
ghost use Rattle.esr_c.specs.Many.{AreAnswered, IsAnsweredStatus, IsEnd, IsFullFor, IsOne, event_of};

use crate::engine::Status;
use crate::reply::{EsrReply, to_reply};
use esr_engine::{EmbeddedEngine, EngineError};
use esr_history::{Event, Reply, TxnId};
use esr_items::ItemId;

/// An event: its kind (1 begins an update, 2 reads, 3 writes, 4 commits, 5 aborts, 6 begins a query, 7 a strict one),
/// and the data of the kind.
#[repr(C)]
#[derive(Clone, Copy)]
pub struct EsrEvent {
    pub kind: u32,
    pub txn: u32,
    pub item: u32,
    pub limit: u64,
    pub value: i64,
}

/// Returns the event, if its kind is known.
fn event_of(event: EsrEvent) -> Option<Event>
    ensures { result ≡ event_of event }
{
    let EsrEvent {
        kind,
        txn,
        item,
        limit,
        value,
    } = event;
    let (txn, item) = (TxnId(txn), ItemId(item));
    match kind {
        1 => Some(Event::BeginUpdate { limit }),
        2 => Some(Event::Read { txn, item }),
        3 => Some(Event::Write { txn, item, value }),
        4 => Some(Event::Commit { txn }),
        5 => Some(Event::Abort { txn }),
        6 => Some(Event::BeginQuery {
            limit,
            strict: false,
        }),
        7 => Some(Event::BeginQuery {
            limit,
            strict: true,
        }),
        _ => None,
    }
}

/// Executes one event of many.
fn answer_one(engine: &mut EmbeddedEngine, event: EsrEvent) -> Result<Reply, Status>
    ensures ok { IfOk result (λ reply. IsOne engine.old event engine.new reply) }
    ensures unknown { IsErrOf result Status.NoSuchEvent → event_of event ≡ None }
    ensures full { IsErrOf result Status.HistoryFull → IsFullFor engine.old event }
    ensures statuses { IfErr result (λ e. IsAnsweredStatus (status_number e) × (e ≢ Status.Done)) }
    ensures err { OnErr result (engine.new ≡ engine.old) }
{
    let Some(event) = event_of(event) else {
        return Err(Status::NoSuchEvent);
    };
    match engine.step(event) {
        Ok(reply) => Ok(reply),
        Err(EngineError::Full) => Err(Status::HistoryFull),
        Err(EngineError::NoMemory) => Err(Status::NoMemory),
    }
}

/// Returns whether an event was refused.
fn is_refusal(reply: Reply) -> bool
    ensures { result ≡ is_refusal reply }
{
    matches!(reply, Reply::Refused(_))
}

/// Executes events one after another, up to the first that fails, or is refused if `stop` is set. The count is the
/// number of events executed.
pub(crate) fn answer_all(
    engine: &mut EmbeddedEngine,
    events: &[EsrEvent],
    replies: &mut [EsrReply],
    stop: bool,
    count: &mut usize,
) -> Status
    requires fits { length events.now ≤ length replies.old }
    ensures statuses { IsAnsweredStatus (status_number result) }
    ensures answered { AreAnswered engine.old engine.new events.now count.new replies.new }
    ensures end { IsEnd engine.old events.now stop count.new (status_number result) }
{
    *count = 0;
    for i in 0..events.len() {
        let reply = match answer_one(engine, events[i]) {
            Ok(reply) => reply,
            Err(why) => return why,
        };
        replies[i] = to_reply(reply);
        *count = i + 1;
        if stop && is_refusal(reply) {
            return Status::Done;
        }
    }
    Status::Done
}
