//! The inbox of a run on its way to its file, and what the readers of its binds have beside their connections.
//!
//! All binds share one inbox. A reader holds its lock while the lines of one turn are written together.

ghost use Rattle.std.specs.Prelude.{◌≡◌, IfErr, IfOk, option_map};
ghost use Rattle.sms_inbox.specs.Files.{count_of, stream_of, unkept_of};
ghost use Rattle.sms_session.specs.Enquiries.{begun};
ghost use Rattle.sms_bind.specs.Devices.{KeptOnce};
ghost use Rattle.sms_devices.specs.Inboxes.{IsBegun};

use crate::clock::Ticks;
use crate::journal::{JournalFailure, unix_ms};
use crate::stay::Stay;
use sms_bind::{Arrived, Keeping, Kept, Look, ReaderDevice, Receipt, Unkept};
use sms_inbox::InboxFile;
use sms_session::Enquiry;
use sms_worker::Clock;
use std::alloc::Global;
use std::fs::OpenFile;
use std::io::Write;
use std::sync::{Mutex, Wait};
use std::time;

/// The inbox of a run. It is shared by the readers of all binds.
#[derive(Drop)]
pub struct Inbox<F> {
    file: Mutex<InboxFile<F>>,
    /// What is waited for behind the last message, if anything is.
    stay: Option<Stay>,
}

impl<F: Write + OpenFile> Inbox<F> {
    /// An inbox before a file of whole lines, to which it appends. With `is_synced` what is kept is durable.
    pub fn new(alloc: Global, file: F, is_synced: bool, stay: Option<Stay>) -> Inbox<F> {
        Inbox {
            file: Mutex::new(InboxFile::new(alloc, file, is_synced)),
            stay,
        }
    }

    /// Why nothing more was kept from some time on, if a write failed.
    pub fn failure<R: Wait>(&self, rt: &R) -> Option<JournalFailure> {
        match self.file.lock(rt).failure() {
            Some(kind) => Some(JournalFailure::of(kind)),
            None => None,
        }
    }

    /// Keeps the deliver_sm among the whole frames at the front of these octets, which come now on this bind. The file is asked for
    /// nothing where there is none.
    fn keep<'a, R: Wait + time::Clock>(
        &self,
        rt: &R,
        bind: u8,
        octets: &'a [u8],
    ) -> Result<Kept<'a>, Unkept<'a>>
        ensures stream { IfOk result (λ kept. stream_of kept ≡ octets.now) }
        ensures unkept { IfErr result (λ unkept. unkept_of unkept ≡ octets.now) }
        ensures once { IfOk result (λ kept. KeptOnce octets.now 0 (count_of kept)) }
    {
        if let Some(none) = Kept::of_none(octets) {
            return Ok(none);
        }
        let time = unix_ms(rt);
        self.file.lock(rt).keep(time, bind, octets)
    }

    /// Hears the receipts among octets that are kept, if they are waited for.
    fn hear<R: Wait>(&self, rt: &R, octets: &[u8]) {
        if let Some(stay) = &self.stay {
            stay.hear(rt, octets);
        }
    }

    /// Octets weren't kept. Once nothing more is kept no receipt is waited for.
    fn miss<R: Wait>(&self, rt: &R) {
        if let Some(stay) = &self.stay {
            if self.failure(rt).is_some() {
                stay.end();
            }
        }
    }
}

/// After how many milliseconds without an octet a line is asked, and how long it has to answer then.
#[derive(Clone, Copy, Debug, PartialEq, Eq)]
pub struct EnquireTimes {
    pub idle_ms: u64,
    pub answer_ms: u64,
}

/// What the readers of all binds of a run have beside their connections.
#[derive(Drop)]
pub struct LineSettings<'j, F> {
    /// Where deliver_sm are kept, if they are to be.
    pub inbox: Option<&'j Inbox<F>>,
    /// When lines are asked, if they are to be.
    pub enquire: Option<EnquireTimes>,
}

impl<'j, F> LineSettings<'j, F> {
    /// Nothing is kept, and no line is asked.
    pub fn none() -> LineSettings<'j, F> {
        LineSettings {
            inbox: None,
            enquire: None,
        }
    }

    /// What is waited for behind the last message, if anything is.
    pub fn stay(&self) -> Option<&'j Stay> {
        match self.inbox {
            Some(inbox) => inbox.stay.as_ref(),
            None => None,
        }
    }

    /// The same settings.
    pub fn another(&self) -> LineSettings<'j, F>
        ensures { result ≡ self.now }
    {
        LineSettings {
            inbox: self.inbox,
            enquire: self.enquire,
        }
    }
}

/// A watch from this moment on, if a line is to be asked.
fn watch_from(times: Option<EnquireTimes>, now: u64) -> Option<Enquiry>
    ensures { result ≡ option_map (λ t. begun t.idle_ms t.answer_ms now) times }
{
    match times {
        Some(times) => Some(Enquiry::new(times.idle_ms, times.answer_ms, now)),
        None => None,
    }
}

/// What the reader of one bind has beside its connection.
#[derive(Drop)]
pub struct LineDevice<'r, 'j, R: Wait, F> {
    rt: &'j R,
    clock: &'r Ticks<'j, R>,
    bind: u8,
    inbox: Option<&'j Inbox<F>>,
    /// How many deliver_sm it has kept.
    kept: u64,
    enquiry: Option<Enquiry>,
}

impl<'r, 'j, R: Wait + time::Clock, F> LineDevice<'r, 'j, R, F> {
    /// What the reader of this bind has, by the settings. Its line is watched from now on.
    pub(crate) fn new(
        rt: &'j R,
        clock: &'r Ticks<'j, R>,
        bind: u8,
        settings: LineSettings<'j, F>,
    ) -> LineDevice<'r, 'j, R, F>
        ensures inbox { result.inbox ≡ settings.entry.inbox }
        ensures watched { IsBegun settings.entry.enquire result.enquiry }
        ensures bind { (result.bind ≡ bind) × (result.kept ≡ 0) }
    {
        let enquiry = watch_from(settings.enquire, clock.now_ms());
        LineDevice {
            rt,
            clock,
            bind,
            inbox: settings.inbox,
            kept: 0,
            enquiry,
        }
    }
}

impl<'r, 'j, R: Wait + time::Clock, F: Write + OpenFile> ReaderDevice for LineDevice<'r, 'j, R, F> {
    ghost use Rattle.std.specs.Option.{is_some};

    ghost keeps = { λ d. is_some d.inbox };

    ghost kept = { λ d. d.kept };

    ghost watch = { λ d. d.enquiry };

    fn keeps(&self) -> bool {
        self.inbox.is_some()
    }

    fn keep<'a>(&mut self, arrived: Arrived<'a>) -> Keeping<'a> {
        let Some(inbox) = self.inbox else {
            return Keeping::Unasked;
        };
        match inbox.keep(self.rt, self.bind, arrived.octets()) {
            Ok(kept) => {
                inbox.hear(self.rt, arrived.octets());
                self.kept = self.kept.saturating_add(kept.count());
                Keeping::Kept(kept)
            }
            Err(no) => {
                inbox.miss(self.rt);
                Keeping::Unkept(no)
            }
        }
    }

    fn heard(&mut self) {
        if let Some(enquiry) = &mut self.enquiry {
            enquiry.heard(self.clock.now_ms());
        }
    }

    fn look(&self) -> (u64, Look) {
        match &self.enquiry {
            Some(enquiry) => {
                let now = self.clock.now_ms();
                (now, enquiry.look(now))
            }
            None => (0, Look::Wait(u64::MAX)),
        }
    }

    fn asked(&mut self, now: u64, _sent: &Receipt) {
        if let Some(enquiry) = &mut self.enquiry {
            enquiry.asked(now);
        }
    }
}
