//! The file of an inbox. What came is in it before it is acknowledged.

ghost use Rattle.std.specs.Prelude.{◌≡◌, None, IfErr, IfOk, IfSome, IsErr, IsSome, OnErr, OnOk, string_bytes};
ghost use Rattle.std.specs.Io.KnownBytes.{Appends};
ghost use Rattle.sms_pdu.specs.Streams.{SomeAppended};
ghost use Rattle.sms_inbox.specs.Arrivals.{HasNone};
ghost use Rattle.sms_inbox.specs.Files.{HasKept, KeptInPart, count_of, failure_of, file_of, stream_of, unkept_of};

use crate::arrivals::{has_none, write_arrivals};
use sms_pdu::write_octets;
use std::alloc::Global;
use std::fs::OpenFile;
use std::io;
use std::io::{ErrorKind, Write};

/// Evidence that each deliver_sm among the whole frames at the front of these octets is in an inbox's file. Only a file that
/// has taken their lines makes it, or a look that found none.
#[derive(Clone, Copy)]
pub struct Kept<'a> {
    stream: &'a [u8],
    count: u64,
}

/// Evidence that the deliver_sm among the whole frames at the front of these octets couldn't be kept. Only a file that
/// failed, or that was refused memory for their lines, makes it.
#[derive(Clone, Copy)]
pub struct Unkept<'a> {
    stream: &'a [u8],
}

/// The file of an inbox. Nothing is written behind a write that failed, which may have left a part of a line.
#[derive(Drop)]
pub struct InboxFile<F> {
    alloc: Global,
    file: F,
    /// The lines that are written together. It is used again, so that later ones take no memory of their own.
    page: String,
    /// Whether what was written is made durable before it counts as kept.
    is_synced: bool,
    /// Why nothing more is written.
    failure: Option<ErrorKind>,
}

impl<'a> Kept<'a> {
    /// Octets with no deliver_sm among their whole frames, of which none is to be kept. None where there is one.
    pub fn of_none(stream: &'a [u8]) -> Option<Kept<'a>>
        ensures stream { IfSome result (λ kept. stream_of kept ≡ stream.now) }
        ensures count { IfSome result (λ kept. count_of kept ≡ 0) }
        ensures none { IsSome result → HasNone stream.now }
    {
        if has_none(stream) {
            Some(Kept { stream, count: 0 })
        } else {
            None
        }
    }

    /// How many deliver_sm are kept.
    pub fn count(&self) -> u64
        ensures { result ≡ count_of self.now }
    {
        self.count
    }
}

impl<F: Write + OpenFile> InboxFile<F> {
    /// Before a file of whole lines, to which it appends. With `is_synced` what is kept is durable.
    pub fn new(alloc: Global, file: F, is_synced: bool) -> InboxFile<F>
        ensures file { file_of result ≡ file }
        ensures whole { failure_of result ≡ None }
    {
        InboxFile {
            alloc,
            file,
            page: String::new(alloc),
            is_synced,
            failure: None,
        }
    }

    /// Why nothing more is written, if a write has failed.
    pub fn failure(&self) -> Option<ErrorKind>
        ensures { result ≡ failure_of self.now }
    {
        self.failure
    }

    /// The file.
    pub fn into_file(self) -> F
        ensures { result ≡ file_of self }
    {
        self.file
    }

    /// Keeps each deliver_sm among the whole frames at the front of these octets, which came at this time on this bind: their
    /// lines are in the file when it returns. Refused where memory is refused, which writes nothing, or where the file fails or
    /// has failed.
    pub fn keep<'a>(
        &mut self,
        time: u64,
        bind: u8,
        stream: &'a [u8],
    ) -> Result<Kept<'a>, Unkept<'a>>
        ensures stream { IfOk result (λ kept. stream_of kept ≡ stream.now) }
        ensures unkept { IfErr result (λ unkept. unkept_of unkept ≡ stream.now) }
        ensures kept { IfOk result (λ kept. HasKept F.contents time bind stream.now (count_of kept) (file_of self.old) (file_of self.new)) }
        ensures partly { OnErr result (KeptInPart F.contents time bind stream.now (file_of self.old) (file_of self.new)) }
        // A write that failed, which may have left a part of a line, is known from then on.
        ensures intact { OnErr result (failure_of self.new ≡ None → file_of self.new ≡ file_of self.old) }
        ensures whole { OnOk result (failure_of self.new ≡ None) }
        ensures failed { IsSome (failure_of self.old) → IsErr result × (self.new ≡ self.old) }
    {
        if self.failure.is_some() {
            return Err(Unkept { stream });
        }
        self.page.clear();
        let Ok(count) = write_arrivals(&mut self.page, self.alloc, time, bind, stream) else {
            return Err(Unkept { stream });
        };
        match self.write_page() {
            Ok(()) => Ok(Kept { stream, count }),
            Err(error) => {
                self.failure = Some(error.kind());
                Err(Unkept { stream })
            }
        }
    }

    /// Writes the page to the file.
    fn write_page(&mut self) -> io::Result<()>
        ensures whole { OnOk result (Appends (F.contents self.old.file) (F.contents self.new.file) (string_bytes self.old.page)) }
        ensures part { OnErr result (SomeAppended (F.contents self.old.file) (F.contents self.new.file) (string_bytes self.old.page)) }
        ensures failure { self.new.failure ≡ self.old.failure }
    {
        write_octets(&mut self.file, self.page.as_bytes())?;
        if self.is_synced {
            self.file.sync_data()
        } else {
            Ok(())
        }
    }
}
