//! The requests for each message, found by its index.

ghost use Rattle.std.specs.Prelude.{◌≡◌, ℕ, ◌==◌, ◌++◌, ◌∷◌, [], if◌then◌else◌, IfOk, OnOk, nat_eq};
ghost use Rattle.std.specs.HashMap.{get};
ghost use Rattle.std.specs.Option.{unwrap_or};
ghost use Rattle.sms_journal.specs.Index.{AreInTurn, request_about, requests_about, requests_kept};

use crate::notes::dense_map::DenseMap;
use crate::notes::note::{Note, RequestId};
use sms_files::memory::{self, NoMemory};
use std::alloc::Global;
use std::collections::HashMap;
use std::marker::Model;

/// A request, and the number of the part that it is for.
#[derive(Clone, Copy, Debug, PartialEq, Eq)]
pub(crate) struct PartRequest {
    pub(crate) request: RequestId,
    pub(crate) part: u8,
}

/// Requests for a message, in order. Contracts see the list.
#[derive(Drop)]
pub(crate) struct PartRequests {
    items: Vec<PartRequest>,
}

impl Model for PartRequests {
    ghost use Rattle.std.specs.Prelude.{List};
    ghost use Rattle.sms_journal.specs.declared.notes.grouping.PartRequest.{PartRequest};

    ghost Value = { List PartRequest };

    ghost view = { λ requests. requests.items.items };
}

impl PartRequests {
    ghost use Rattle.std.specs.Prelude.{◌≡◌, [], ◌∷◌, ◌++◌, IfOk, OnOk};

    /// One request.
    fn one(alloc: Global, request: PartRequest) -> Result<PartRequests, NoMemory>
        ensures { IfOk result (λ requests. requests ≡ request ∷ []) }
    {
        let mut items = Vec::new(alloc);
        memory::push(&mut items, request)?;
        Ok(PartRequests { items })
    }

    /// One more.
    fn push(&mut self, request: PartRequest) -> Result<(), NoMemory>
        ensures { OnOk result (self.new ≡ self.old ++ request ∷ []) }
    {
        memory::push(&mut self.items, request)?;
        Ok(())
    }

    /// The requests.
    fn as_slice(&self) -> &[PartRequest]
        ensures { result.now ≡ self.now }
    {
        self.items.as_slice()
    }
}

/// The requests for each message, by its index: the first, which most messages have alone, and the others.
#[derive(Drop)]
pub(crate) struct MessageRequests {
    pub(crate) firsts: DenseMap<PartRequest>,
    pub(crate) others: HashMap<u64, PartRequests>,
}

/// Adds a request to the others of a message.
fn add(
    alloc: Global,
    others: &mut HashMap<u64, PartRequests>,
    index: u64,
    request: PartRequest,
) -> Result<(), NoMemory>
    ensures { OnOk result ((q : ℕ) → unwrap_or (get nat_eq others.new q) [] ≡ unwrap_or (get nat_eq others.old q) [] ++ (if index == q then request ∷ [] else [])) }
{
    match others.get_mut(&index) {
        Some(requests) => requests.push(request),
        None => {
            memory::insert(others, index, PartRequests::one(alloc, request)?)?;
            Ok(())
        }
    }
}

/// Adds a request to those for a message.
fn add_request(
    alloc: Global,
    groups: &mut MessageRequests,
    index: u64,
    request: PartRequest,
) -> Result<(), NoMemory>
    requires { AreInTurn groups.old }
    ensures turn { OnOk result (AreInTurn groups.new) }
    ensures added { OnOk result ((q : ℕ) → requests_kept groups.new q ≡ requests_kept groups.old q ++ (if index == q then request ∷ [] else [])) }
{
    if groups.firsts.has(index) {
        add(alloc, &mut groups.others, index, request)?;
        return Ok(());
    }
    groups.firsts.put(index, request)?;
    Ok(())
}

/// Adds the request that a note is of, if it is of one.
fn add_note(alloc: Global, groups: &mut MessageRequests, note: &Note) -> Result<(), NoMemory>
    requires { AreInTurn groups.old }
    ensures turn { OnOk result (AreInTurn groups.new) }
    ensures added { OnOk result ((q : ℕ) → requests_kept groups.new q ≡ requests_kept groups.old q ++ request_about q note.now) }
{
    if let Note::Sent(request, index, part) = *note {
        add_request(alloc, groups, index, PartRequest { request, part })?;
    }
    Ok(())
}

/// No requests yet.
fn no_groups(alloc: Global) -> MessageRequests
    ensures turn { AreInTurn result }
    ensures none { (q : ℕ) → requests_kept result q ≡ [] }
{
    MessageRequests {
        firsts: DenseMap::new(alloc),
        others: HashMap::new(alloc),
    }
}

/// The requests for each message.
pub(crate) fn groups(alloc: Global, notes: &[Note]) -> Result<MessageRequests, NoMemory>
    ensures { IfOk result (λ groups. (q : ℕ) → requests_kept groups q ≡ requests_about notes.now q) }
{
    let mut groups = no_groups(alloc);
    for note in notes {
        add_note(alloc, &mut groups, note)?;
    }
    Ok(groups)
}

/// The requests for a message behind the first.
pub(crate) fn others_of(others: &HashMap<u64, PartRequests>, index: u64) -> &[PartRequest]
    ensures { result.now ≡ unwrap_or (get nat_eq others.now index) [] }
{
    match others.get(&index) {
        Some(requests) => requests.as_slice(),
        None => &[],
    }
}
