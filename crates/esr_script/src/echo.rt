//! Replies that repeat the words of their line: these are copied from it in one piece, and no number of the line is
//! formatted. The reply to a write is its line, in which `write` becomes `wrote`; that to a begin has the first two words
//! of its line, in which `begin` becomes `begun`.

ghost use Rattle.std.specs.Prelude.{◌≡◌, ◌++◌, OnOk, OnErr};
ghost use Rattle.esr_report.specs.Lines.{reply_line};
ghost use Rattle.esr_report.specs.Subjects.{named_by};
ghost use Rattle.esr_script.specs.Echoes.{IsEcho};

use crate::text_buffer::TextBuffer;
use esr_history::Reply;
use esr_report::{Names, ReplyNames, reply_line};
use std::alloc::AllocError;

/// The words that a reply may repeat from its line.
#[derive(Clone, Copy)]
pub enum Echo<'a> {
    /// The names of a read.
    Read(&'a [u8]),
    /// The line of a write.
    Write(&'a [u8]),
    /// The first two words of the line of a begin.
    Begin(&'a [u8]),
    /// Nothing but the name of a commit.
    Commit,
}

/// Appends the line of any reply.
#[cold]
#[inline(never)]
pub fn push_other_reply(
    out: &mut TextBuffer,
    names: &Names,
    subject: ReplyNames<'_>,
    reply: Reply,
) -> Result<(), AllocError>
    ensures ok { OnOk result (out.new ≡ out.old ++ reply_line names.now (named_by subject.entry) reply) }
    ensures err { OnErr result (out.new ≡ out.old) }
{
    let mut text = out.take_text();
    let appended = reply_line(&mut text, names, subject, reply);
    out.put_text(text);
    appended
}

/// Appends the line of the machine's reply to an event that names the subject, given its line or the words of it.
#[tactic(auto, using(crate::proofs::Echoes::wrote, crate::proofs::Echoes::is_long, crate::proofs::Echoes::begun, crate::proofs::Echoes::is_begin_long))]
#[inline(always)]
pub fn push_reply(
    out: &mut TextBuffer,
    names: &Names,
    subject: ReplyNames<'_>,
    echo: Echo<'_>,
    reply: Reply,
) -> Result<(), AllocError>
    requires { IsEcho echo (named_by subject) }
    ensures ok { OnOk result (out.new ≡ out.old ++ reply_line names.now (named_by subject.entry) reply) }
    ensures err { OnErr result (out.new ≡ out.old) }
{
    match (reply, echo) {
        (Reply::Wrote, Echo::Write(line)) => out.append_wrote(line),
        (Reply::Value(value), Echo::Read(words)) => {
            let mut digits = itoa::Buffer::new();
            out.append_value(words, digits.format(value).as_bytes())
        }
        (Reply::Begun(number), Echo::Begin(words)) => {
            let mut digits = itoa::Buffer::new();
            out.append_begun(words, digits.format(number.0).as_bytes())
        }
        (Reply::Committed, Echo::Commit) => out.append_committed(subject.txn.as_bytes()),
        _ => push_other_reply(out, names, subject, reply),
    }
}
