//! When a line that idles is asked by an enquire_link, and when it is given up (SMPP 3.4 4.11, 7.2).

ghost use Rattle.std.specs.Prelude.{◌≡◌};
ghost use Rattle.sms_session.specs.Enquiries.{SilentWereAsked, asked_at, begun, heard_at, left_of, looked};

use std::marker::Model;

/// Watches over a line. Moments are milliseconds of a clock that doesn't go back. Contracts see it as a `Watch`.
#[derive(Debug, Drop)]
pub struct Enquiry {
    idle_ms: u64,
    answer_ms: u64,
    heard: u64,
    asked: Option<u64>,
}

impl Model for Enquiry {
    ghost use Rattle.sms_session.specs.Enquiries.{Watch};

    ghost Value = { Watch };

    ghost view = { λ e. record { idle_ms = e.idle_ms; answer_ms = e.answer_ms; heard = e.heard; asked = e.asked } };
}

/// What is to be done with a line, as it stands at a moment.
#[derive(Clone, Copy, Debug, PartialEq, Eq)]
pub enum Look {
    /// Nothing, for so many milliseconds, unless something comes.
    Wait(u64),
    /// Nothing came for so long that it is to be asked.
    Ask,
    /// It was asked, and nothing came in time: it is down, for the cause `silent`.
    Silent,
}

/// How much is left of a time that began then; none where it is over.
fn left(limit: u64, since: u64, now: u64) -> Option<u64>
    ensures { result ≡ left_of limit since now }
{
    let past = now.saturating_sub(since);
    if past >= limit {
        None
    } else {
        Some(limit - past)
    }
}

impl Enquiry {
    /// A watch over a line that was made at this moment: after `idle_ms` without an octet it is to be asked, and
    /// then has `answer_ms`.
    pub fn new(idle_ms: u64, answer_ms: u64, now: u64) -> Enquiry
        ensures { result ≡ begun idle_ms answer_ms now }
    {
        Enquiry {
            idle_ms,
            answer_ms,
            heard: now,
            asked: None,
        }
    }

    /// Octets came at this moment. Whatever they are, the line isn't silent.
    pub fn heard(&mut self, now: u64)
        ensures { self.new ≡ heard_at now self.old }
    {
        self.heard = now;
        self.asked = None;
    }

    /// It was asked at this moment.
    pub fn asked(&mut self, now: u64)
        ensures { self.new ≡ asked_at now self.old }
    {
        self.asked = Some(now);
    }

    /// What is to be done at this moment.
    pub fn look(&self, now: u64) -> Look
        ensures { result ≡ looked now self.now }
    {
        match self.asked {
            None => match left(self.idle_ms, self.heard, now) {
                Some(wait) => Look::Wait(wait),
                None => Look::Ask,
            },
            Some(at) => match left(self.answer_ms, at, now) {
                Some(wait) => Look::Wait(wait),
                None => Look::Silent,
            },
        }
    }
}

/// Whatever came of a line, it is called silent only where it was asked after so long without an octet, and none came
/// since, for as long as it has to answer; it is asked only where none came for so long, and it isn't asked twice without.
pub fn silent_lines_were_asked()
    ensures { SilentWereAsked }
{}
