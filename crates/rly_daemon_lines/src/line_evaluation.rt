ghost use Rattle.std.specs.Prelude.{◌≡◌, ◌∷◌, ◌++◌, [], OnErr, OnOk, string_bytes};
ghost use Rattle.rly_core.specs.Refusals.{refusal_line};
ghost use Rattle.rly_machine.specs.Ask.{ask_step};
ghost use Rattle.rly_daemon_lines.specs.HelpersOutflow.{LeavesBeginning};
ghost use Rattle.rly_daemon_reply.specs.Replies.{reply_text, subject_of};
ghost use Rattle.rly_daemon_lines.specs.Text.{answer_of};

use crate::grammar::parse_line;
use crate::line_note::note_line;
use rly_core::Refusal;
use rly_daemon_reply::{ReplyLine, Subject};
use rly_machine::{Ask, Machine, Payload, Reply};
use std::alloc::{AllocError, Global};

/// Evaluates the ask of a line on a machine, and appends the reply line with its newline. Says on standard error what is
/// wrong with a line of this number that has no ask.
pub(crate) fn answer_line(
    alloc: Global,
    machine: &mut Machine<Payload>,
    number: u64,
    line: &[u8],
    text: &mut String,
) -> Result<(), AllocError>
    ensures state { OnOk result (machine.new.state ≡ (answer_of machine.old.state line.now).0) }
    ensures text { OnOk result
        (string_bytes text.new ≡ string_bytes text.old ++ (answer_of machine.old.state line.now).1 ++ 10 ∷ []) }
    ensures left { OnErr result (LeavesBeginning (string_bytes text.old) (string_bytes text.new)) }
{
    match parse_line(alloc, line)? {
        Some(ask) => answer_ask(alloc, machine, ask, text),
        None => {
            note_line(alloc, number, line);
            add_refused_line(text)
        }
    }
}

/// Evaluates an ask, and appends its reply line with the newline.
fn answer_ask(
    alloc: Global,
    machine: &mut Machine<Payload>,
    ask: Ask,
    text: &mut String,
) -> Result<(), AllocError>
    ensures state { OnOk result (machine.new.state ≡ (ask_step machine.old.state ask).0) }
    ensures text { OnOk result
        (string_bytes text.new
        ≡ string_bytes text.old ++ reply_text (subject_of ask) (ask_step machine.old.state ask).1 ++ 10 ∷ []) }
    ensures left { OnErr result (LeavesBeginning (string_bytes text.old) (string_bytes text.new)) }
{
    let subject = Subject::of(&ask);
    let reply = machine.evaluate(alloc, ask)?;
    add_reply(text, subject, &reply)
}

/// Appends a reply line, with its newline. If memory is refused, all text is discarded, since its content is
/// unknown then.
pub(crate) fn add_reply(
    text: &mut String,
    subject: Subject,
    reply: &Reply,
) -> Result<(), AllocError>
    ensures added { OnOk result
        (string_bytes text.new ≡ string_bytes text.old ++ reply_text subject reply.now ++ 10 ∷ []) }
    ensures none { OnErr result (string_bytes text.new ≡ []) }
{
    let line = ReplyLine { subject, reply };
    let added = writeln!(text, "{line}");
    if added.is_err() {
        text.clear();
    }
    added
}

/// Appends the reply line of a line without an ask, with its newline. If memory is refused, all text is discarded.
pub(crate) fn add_refused_line(text: &mut String) -> Result<(), AllocError>
    ensures added { OnOk result
        (string_bytes text.new ≡ string_bytes text.old ++ refusal_line Refusal.Line ++ 10 ∷ []) }
    ensures none { OnErr result (string_bytes text.new ≡ []) }
{
    let refusal = Refusal::Line;
    let added = writeln!(text, "{refusal}");
    if added.is_err() {
        text.clear();
    }
    added
}
