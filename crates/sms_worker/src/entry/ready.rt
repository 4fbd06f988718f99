//! A worker that has all lists that its call needs.

ghost use Rattle.std.specs.Prelude.{◌≡◌, ◌≤◌, [], IfOk, IfErr, vec_capacity};

use crate::ends::MessageEnd;
use crate::entry::work::Worker;
use crate::state::open::Open;
use crate::state::pending::PendingParts;
use sms_bind::LogName;
use sms_book::BookName;
use sms_message::{Message, Rules};
use std::alloc::{AllocError, Global};
use std::marker::Model;

/// The lists of a call, which are grown first.
#[derive(Drop)]
pub struct Lists {
    pub ends: Vec<MessageEnd>,
    pub pending: Vec<PendingParts>,
    pub opened: Vec<Open>,
}

fn grow(alloc: Global, messages: usize, depth: usize) -> Result<Lists, AllocError>
    ensures empty { IfOk result (λ l. (l.ends.items ≡ []) × (l.pending.items ≡ []) × (l.opened.items ≡ [])) }
    ensures room { IfOk result (λ l. (messages ≤ vec_capacity l.ends) × (messages ≤ vec_capacity l.pending) × (depth ≤ vec_capacity l.opened)) }
{
    let ends = Vec::with_capacity(alloc, messages)?;
    let pending = Vec::with_capacity(alloc, messages)?;
    let opened = Vec::with_capacity(alloc, depth)?;
    Ok(Lists {
        ends,
        pending,
        opened,
    })
}

/// A worker and its messages, with all memory that is taken before its first step. Contracts see what it
/// was given, and how many requests it has room for.
#[derive(Drop)]
pub struct ReadyWorker<N: BookName + LogName> {
    pub(crate) worker: Worker<N>,
    pub(crate) messages: Vec<Message>,
    pub(crate) lists: Lists,
}

impl<N: BookName + LogName> Model for ReadyWorker<N> {
    ghost use Rattle.std.specs.Prelude.{◌≡◌, ◌≤◌, [], vec_len, vec_capacity};
    ghost use Rattle.sms_worker.specs.ReadyState.{ReadyState};

    ghost Value = { ReadyState N };

    ghost view = { λ r. record { worker = r.worker; messages = r.messages.items; room = vec_capacity r.lists.opened } };

    ghost invariant = { λ r. record {
      no_ends : r.lists.ends.items ≡ [];
      no_pending : r.lists.pending.items ≡ [];
      none_opened : r.lists.opened.items ≡ [];
      ends_fit : vec_len r.messages ≤ vec_capacity r.lists.ends;
      pending_fit : vec_len r.messages ≤ vec_capacity r.lists.pending;
    } };
}

impl<N: BookName + LogName> ReadyWorker<N> {
    /// Allocates what a call by these rules needs before its first step. If that fails, the worker and its
    /// messages are handed back.
    pub fn new(
        alloc: Global,
        worker: Worker<N>,
        messages: Vec<Message>,
        rules: &Rules,
    ) -> Result<ReadyWorker<N>, (AllocError, Worker<N>, Vec<Message>)>
        ensures worker { IfOk result (λ r. r.worker ≡ worker) }
        ensures messages { IfOk result (λ r. r.messages ≡ messages.items) }
        ensures room { IfOk result (λ r. rules.now.depth ≤ r.room) }
        ensures refused { IfErr result (λ e. (e.1 ≡ worker) × (e.2.items ≡ messages.items)) }
    {
        match grow(alloc, messages.len(), rules.depth as usize) {
            Ok(lists) => Ok(ReadyWorker {
                worker,
                messages,
                lists,
            }),
            Err(error) => Err((error, worker, messages)),
        }
    }

    /// Gives the worker and its messages back without running it.
    pub fn into_parts(self) -> (Worker<N>, Vec<Message>)
        ensures worker { result.0 ≡ self.worker }
        ensures messages { result.1.items ≡ self.messages }
    {
        let ReadyWorker {
            worker,
            messages,
            ..
        } = self;
        (worker, messages)
    }
}
