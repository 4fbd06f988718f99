//! The messages that a run leaves for a further round.

ghost use Rattle.std.specs.Prelude.{◌≡◌, ◌++◌, List, IfOk, OnOk};
ghost use Rattle.std.specs.List.{AllZip};
ghost use Rattle.sms_journal.specs.Left.{SaysSame, count_left as counted, is_left as leaves, is_passing as passes, left_in, one};
ghost use Rattle.sms_message.specs.declared.message.Message.{Message as TheMessage};

use sms_message::{Message, MessageEnd, MessageRefusal, MessageResult};
use std::alloc::{AllocError, Global};

/// Whether a message that was refused for this reason is left for a further round: its bind was closed to it, or memory
/// was refused for it.
pub(crate) fn is_passing(refusal: MessageRefusal) -> bool
    ensures { result ≡ passes refusal }
{
    matches!(
        refusal,
        MessageRefusal::BindClosed | MessageRefusal::OutOfMemory
    )
}

/// Whether nothing of the message with this end was begun, so that a further round may send it.
pub fn is_left<S>(end: &MessageEnd<S>) -> bool
    ensures { result ≡ leaves end.now.result }
{
    match &end.result {
        MessageResult::Refused(refusal) => is_passing(*refusal),
        MessageResult::Sent(_) => false,
    }
}

/// How many messages these ends leave.
pub fn count_left<S>(ends: &[MessageEnd<S>]) -> usize
    ensures { result ≡ counted ends.now }
{
    let mut count = 0;
    for end in ends {
        if is_left(end) {
            count += 1;
        }
    }
    count
}

/// A message that says the same.
fn copy_of(alloc: Global, message: &Message) -> Result<Message, AllocError>
    ensures { IfOk result (SaysSame message.now) }
{
    let source = String::from_str(alloc, message.source.as_str())?;
    let dest = String::from_str(alloc, message.dest.as_str())?;
    let text = String::from_str(alloc, message.text.as_str())?;
    Ok(Message {
        index: message.index,
        account: message.account,
        source,
        dest,
        text,
    })
}

/// Messages that say the same, in the same order.
pub fn copies_of(alloc: Global, messages: &[Message]) -> Result<Vec<Message>, AllocError>
    ensures { IfOk result (λ copies. AllZip SaysSame messages.now copies.items) }
{
    let mut copies = Vec::with_capacity(alloc, messages.len())?;
    for message in messages {
        let copy = copy_of(alloc, message)?;
        copies.push(copy)?;
    }
    Ok(copies)
}

/// Adds a copy of the message with this end, where that leaves it.
fn add_left<S>(
    alloc: Global,
    left: &mut Vec<Message>,
    message: &Message,
    end: &MessageEnd<S>,
) -> Result<(), AllocError>
    ensures { (ms : List TheMessage) → AllZip SaysSame ms left.old.items → OnOk result (AllZip SaysSame (ms ++ one (leaves end.now.result) message.now) left.new.items) }
{
    if is_left(end) {
        let copy = copy_of(alloc, message)?;
        left.push(copy)?;
    }
    Ok(())
}

/// Copies of the messages that these ends leave, in their order and with their own numbers.
pub fn messages_left<S>(
    alloc: Global,
    messages: &[Message],
    ends: &[MessageEnd<S>],
) -> Result<Vec<Message>, AllocError>
    ensures { IfOk result (λ left. AllZip SaysSame (left_in messages.now ends.now) left.items) }
{
    let mut left = Vec::new(alloc);
    for place in 0..messages.len().min(ends.len()) {
        add_left(alloc, &mut left, &messages[place], &ends[place])?;
    }
    Ok(left)
}
