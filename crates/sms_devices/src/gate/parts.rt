//! What the gate asks its parts.
//!
//! What each call says is a relation that the part may define. The gate is proved for every part, so it has such a
//! fact by that very call alone: its contracts can say which part it asked, for whom, and what was answered.

use crate::gate::timestamp::Timestamp;
use crate::places::WorkerPlace;
use crate::stay::Stay;
use sms_journal::Note;
use sms_worker::MessageEnd;

/// Limits how fast each bind sends.
pub trait LimitsRate {
    ghost use Rattle.std.specs.Prelude.{ℕ, Bool};
    ghost use Rattle.sms_devices.specs.declared.places.WorkerPlace.{WorkerPlace};
    ghost use Rattle.sms_devices.specs.declared.gate.timestamp.Timestamp.{Timestamp};

    // The answer to a worker that asked for a permit; that its request was counted; that its permit was taken back.
    ghost permits: { Self → WorkerPlace → Timestamp → Bool → Type 0 };

    ghost counts: { Self → WorkerPlace → Timestamp → Type 0 };

    ghost returns: { Self → WorkerPlace → Type 0 };

    /// Whether the worker has a permit: one that it didn't use yet, or a new one if the rate allows it.
    fn permit(&self, place: WorkerPlace, now: Timestamp) -> bool
        ensures { permits self.now place now result };

    /// The worker sends a request, and uses its permit.
    fn count(&self, place: WorkerPlace, now: Timestamp)
        ensures { counts self.now place now };

    /// Takes a permit back that the worker didn't use: other workers of its bind may wait for it.
    fn take_back(&self, place: WorkerPlace)
        ensures { returns self.now place };
}

/// Finds binds to which requests go out and from which no answer comes.
pub trait FindsSilence {
    ghost use Rattle.std.specs.Prelude.{ℕ, Bool};
    ghost use Rattle.sms_devices.specs.declared.places.WorkerPlace.{WorkerPlace};
    ghost use Rattle.sms_devices.specs.declared.gate.timestamp.Timestamp.{Timestamp};

    // That a request of a worker was counted; that an answer to it ended the silence of its bind; whether that is too long.
    ghost counts: { Self → WorkerPlace → Timestamp → Type 0 };

    ghost ends: { Self → WorkerPlace → Type 0 };

    ghost finds: { Self → WorkerPlace → Timestamp → Bool → Type 0 };

    /// A request of the worker goes out.
    fn count(&self, place: WorkerPlace, now: Timestamp)
        ensures { counts self.now place now };

    /// An answer to the worker came.
    fn answer(&self, place: WorkerPlace)
        ensures { ends self.now place };

    /// Whether the worker's bind has been silent for too long.
    fn is_silent(&self, place: WorkerPlace, now: Timestamp) -> bool
        ensures { finds self.now place now result };
}

/// The connections of a run, with what they share: the bells of their workers, and the journal.
pub trait Connections {
    ghost use Rattle.std.specs.Prelude.{◌≡◌, ℕ, Bool, Option};
    ghost use Rattle.sms_devices.specs.Places.{place_of};
    ghost use Rattle.sms_devices.specs.declared.places.WorkerPlace.{WorkerPlace};
    ghost use Rattle.sms_journal.specs.declared.notes.note.Note.{Note};

    // How many workers each bind has.
    ghost workers: { Self → ℕ };

    // That a number's owner was kept; whether a note was made; that an answer was counted; that a connection was given up.
    ghost keeps: { Self → WorkerPlace → ℕ → Type 0 };

    ghost notes: { Self → Option Note → Bool → Type 0 };

    ghost answers: { Self → WorkerPlace → Type 0 };

    ghost gives_up: { Self → WorkerPlace → Type 0 };

    // Whether a message may begin.
    ghost lets_begin: { Self → Bool → Type 0 };

    /// Where the worker with this number stands.
    fn place_of(&self, worker: usize) -> WorkerPlace
        ensures { result ≡ place_of (workers self.now) worker };

    /// Keeps that a number of its bind is a request of the worker, so that the answer wakes that worker alone.
    fn keep_owner(&self, place: WorkerPlace, number: u32)
        ensures { keeps self.now place number };

    /// Makes a note in the journal of the run, if it has one. A note that can't hold its numbers is None. False
    /// if there is a journal and the note isn't made.
    fn note(&self, note: Option<Note>) -> bool
        ensures { notes self.now note result };

    /// A request of the worker's bind was answered.
    fn count_answer(&self, place: WorkerPlace)
        ensures { answers self.now place };

    /// Gives the connection of the worker's bind up: its line goes down.
    fn give_up(&self, place: WorkerPlace)
        ensures { gives_up self.now place };

    /// Waits for the final receipts of the parts of these that were charged, while the worker's bind is up.
    fn stay(&self, worker: usize, stay: &Stay, ends: &[MessageEnd]);

    /// Whether a message may begin: the run was not asked to stop.
    fn may_begin(&self) -> bool
        ensures { lets_begin self.now result };
}
