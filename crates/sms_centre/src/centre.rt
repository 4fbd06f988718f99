//! The centre on one connection: what it says to each frame, after those that came before.

ghost use Rattle.std.specs.Prelude.{◌≡◌, ◌≤◌, IfOk, OnOk, OnErr};
ghost use Rattle.std.specs.List.{AllZip};
ghost use Rattle.sms_pdu.specs.Header.{header_at_front};
ghost use Rattle.sms_centre.specs.Says.{IsSaid, PutsAll, begun, said_to, after_frame, next_submit};
ghost use Rattle.sms_centre.specs.Scripts.{treatment};

use crate::kept::{Kept, keep, say_due};
use crate::said::{Said, pieces_of, put_all};
use crate::saying::{reply_to, say, say_at_once};
use crate::script::Script;
use crate::treatment::Treatment;
use sms_pdu::{Frame, Header, Octets, SUBMIT_SM};
use std::alloc::{AllocError, Global};
use std::marker::Model;

/// The centre on one connection.
#[derive(Drop)]
pub struct Centre {
    script: Script,
    submits: u64,
    kept: Vec<Kept>,
}

impl Model for Centre {
    ghost use Rattle.sms_centre.specs.Says.{Progress};

    ghost Value = { Progress };

    ghost view = { λ c. record { plan = c.script; submits = c.submits; kept = c.kept.items } };
}

/// For how many answers that wait room is made at first.
const FIRST_ROOM: usize = 16;

impl Centre {
    /// The centre on a new connection.
    pub fn new(alloc: Global, script: Script) -> Result<Centre, AllocError>
        ensures { IfOk result (λ c. c ≡ begun script) }
    {
        match Vec::with_capacity(alloc, FIRST_ROOM) {
            Ok(kept) => Ok(Centre {
                script,
                submits: 0,
                kept,
            }),
            Err(_full) => Err(AllocError),
        }
    }

    /// How many submit_sm came.
    pub fn submits(&self) -> u64
        ensures { result ≡ self.now.submits }
    {
        self.submits
    }

    /// What the centre says to a frame: the octets of each piece. A piece is a whole PDU unless the
    /// script says `cut` or `huge`. An `Err` changes nothing.
    pub fn answer(&mut self, alloc: Global, frame: &Frame) -> Result<Vec<Octets>, AllocError>
        ensures answers { IfOk result (λ v. AllZip IsSaid (said_to self.old (header_at_front frame.now)) v.items) }
        ensures after { OnOk result (self.new ≡ after_frame self.old (header_at_front frame.now)) }
        ensures err { OnErr result (self.new ≡ self.old) }
    {
        let header = frame.header();
        let mut said = Vec::new(alloc);
        match self.say(&header, &mut said) {
            Ok(()) => match pieces_of(alloc, said.as_slice()) {
                Ok(pieces) => match self.hear(&header) {
                    Ok(()) => Ok(pieces),
                    Err(e) => Err(e),
                },
                Err(e) => Err(e),
            },
            Err(e) => Err(e),
        }
    }

    /// Writes what the centre says to a frame with this header after what is there; `said` is room
    /// that is used again. An `Err` changes nothing else.
    pub(crate) fn answer_into(
        &mut self,
        alloc: Global,
        header: &Header,
        said: &mut Vec<Said>,
        out: &mut Vec<u8>,
    ) -> Result<(), AllocError>
        ensures answers { OnOk result (PutsAll (said_to self.old header.now) out.old.items out.new.items) }
        ensures after { OnOk result (self.new ≡ after_frame self.old header.now) }
        ensures err { OnErr result ((self.new ≡ self.old) × (out.new.items ≡ out.old.items)) }
    {
        let before = out.len();
        self.say(header, said)?;
        if put_all(alloc, said.as_slice(), out).is_ok() && self.hear(header).is_ok() {
            return Ok(());
        }
        out.truncate(before);
        Err(AllocError)
    }

    /// What is done with the submit_sm that comes next.
    pub(crate) fn next_treatment(&self) -> Treatment
        ensures { result ≡ treatment self.now.plan (next_submit self.now) }
    {
        self.script.treatment(self.next_submit())
    }

    /// The count of the submit_sm that comes next.
    fn next_submit(&self) -> u64
        ensures count { result ≡ next_submit self.now }
        ensures least { 1 ≤ result }
    {
        self.submits.saturating_add(1)
    }

    /// What it says to a frame with this header, and nothing besides.
    fn say(&self, header: &Header, said: &mut Vec<Said>) -> Result<(), AllocError>
        ensures { OnOk result (said.new.items ≡ said_to self.now header.now) }
    {
        said.clear();
        if header.command == SUBMIT_SM {
            let k = self.next_submit();
            match say_due(self.kept.as_slice(), k, said) {
                Ok(()) => say_at_once(self.next_treatment(), k, header.number, said),
                Err(e) => Err(e),
            }
        } else {
            match reply_to(self.script.bind_status(), header) {
                Some(reply) => say(reply, said),
                None => Ok(()),
            }
        }
    }

    /// Takes note of a frame with this header.
    fn hear(&mut self, header: &Header) -> Result<(), AllocError>
        ensures after { OnOk result (self.new ≡ after_frame self.old header.now) }
        ensures err { OnErr result (self.new ≡ self.old) }
    {
        if header.command != SUBMIT_SM {
            return Ok(());
        }
        if self.kept.reserve(1).is_err() {
            return Err(AllocError);
        }
        let k = self.next_submit();
        let treatment = self.next_treatment();
        keep(&mut self.kept, treatment, k, header.number);
        self.submits = k;
        Ok(())
    }
}
