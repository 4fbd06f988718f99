//! The requests of a world in order of reservation, found by their names.
//!
//! A name is looked for from link to link. A link leads to the place of a request or nowhere. The
//! lowest eleven bits of the name choose the first link, and the next three one of the eight that
//! each request has. So a search ends after eight links at the most, whatever the names are.

ghost use Rattle.std.specs.Prelude.{◌≡◌, ◌+◌, ◌≤◌, [], ◌∷◌, ◌++◌, None, Some, IfSome, IfOk, IfErr, OnOk, OnErr, is_some, not, slice_set};
ghost use Rattle.std.specs.Option.{option_map};
ghost use Rattle.sms_core.specs.Links.{AreLinks, IsGap, names};
ghost use Rattle.sms_core.specs.Requests.{place_of, StandsAt};
ghost use Rattle.sms_core.specs.State.{find_request};

use crate::request::{Request, RequestState};
use std::alloc::{AllocError, Global};
use std::marker::Model;

/// Where a link leads that leads to no request.
const NOWHERE: usize = usize::MAX;
/// How many first links there are.
const ROOTS: usize = 2_048;
/// How many links each request has.
const BRANCHES: usize = 8;
/// Eleven bits, and seven times three, are what a name has, so the eighth link is the last.
const MOST_LINKS: u32 = 8;

/// Where the request of a new name goes: the link at which the search for the name ended.
#[derive(Clone, Copy, Debug)]
pub(crate) struct Gap {
    id: u32,
    link: usize,
}

#[derive(Debug, Drop)]
pub(crate) struct Requests {
    list: Vec<Request>,
    // the first links, and eight for each request
    links: Vec<usize>,
}

impl Model for Requests {
    ghost use Rattle.std.specs.Prelude.{◌-◌, ◌/◌, min, vec_len, vec_capacity};
    ghost use Rattle.sms_core.specs.Links.{AreLinks, names};
    ghost use Rattle.sms_core.specs.Requests.{Listed};

    ghost Value = { Listed };

    ghost view = { λ r. record { list = r.list.items; links = r.links.items; room = min (vec_capacity r.list - vec_len r.list) ((vec_capacity r.links - vec_len r.links) / 8) } };

    ghost invariant = { λ r. AreLinks (names r.list.items) r.links.items };
}

/// The place of the request of this name, or the gap into which such a request goes.
fn seek(list: &[Request], links: &[usize], id: u32) -> Result<usize, Gap>
    requires { AreLinks (names list.now) links.now }
    ensures found { IfOk result (λ place. place_of id list.now ≡ Some place) }
    ensures gap { IfErr result (λ gap. IsGap list.now links.now gap) }
    ensures named { IfErr result (λ gap. gap.id ≡ id) }
{
    let mut link = id as usize % ROOTS;
    let mut rest = id as usize / ROOTS;
    for _turn in 0..MOST_LINKS {
        let place = links[link];
        if place == NOWHERE {
            return Err(Gap { id, link });
        }
        if list[place].id == id {
            return Ok(place);
        }
        link = BRANCHES * place + ROOTS + rest % BRANCHES;
        rest /= BRANCHES;
    }
    unreachable!()
}

impl Requests {
    pub(crate) fn new(alloc: Global) -> Result<Requests, AllocError>
        ensures { IfOk result (λ r. r.list ≡ []) }
    {
        Ok(Requests {
            list: Vec::new(alloc),
            links: vec![in alloc; NOWHERE; ROOTS]?,
        })
    }

    pub(crate) fn as_slice(&self) -> &[Request]
        ensures { result.now ≡ self.now.list }
    {
        self.list.as_slice()
    }

    /// The request of this name and its place.
    pub(crate) fn find(&self, id: u32) -> Option<(usize, Request)>
        ensures at { IfSome result (λ p. StandsAt self.now.list p.0 p.1) }
        ensures named { IfSome result (λ p. p.1.id ≡ id) }
        ensures state { find_request id self.now.list ≡ option_map (λ p. p.1.state) result }
    {
        match seek(&self.list, &self.links, id) {
            Ok(place) => Some((place, self.list[place])),
            Err(_) => None,
        }
    }

    /// Where a request of this name goes, if there is none.
    pub(crate) fn gap(&self, id: u32) -> Option<Gap>
        ensures exists { is_some result ≡ not (is_some (find_request id self.now.list)) }
        ensures gap { IfSome result (λ gap. IsGap self.now.list self.now.links gap) }
        ensures named { IfSome result (λ gap. gap.id ≡ id) }
    {
        match seek(&self.list, &self.links, id) {
            Ok(_) => None,
            Err(gap) => Some(gap),
        }
    }

    /// Changes the state of the request at a place.
    pub(crate) fn set(&mut self, place: usize, request: Request)
        requires { place_of request.id self.old.list ≡ Some place }
        ensures { self.new ≡ record self.old { list = slice_set self.old.list place request } }
    {
        self.list[place] = request;
    }

    /// Makes room for more requests.
    pub(crate) fn reserve(&mut self, additional: usize) -> Result<(), AllocError>
        ensures list { self.new.list ≡ self.old.list }
        ensures ok { OnOk result (additional ≤ self.new.room) }
    {
        let Some(more) = additional.checked_mul(BRANCHES) else {
            return Err(AllocError);
        };
        self.list.reserve(additional)?;
        self.links.reserve(more)
    }

    /// Adds a request into its gap.
    pub(crate) fn push(&mut self, gap: Gap, state: RequestState) -> Result<(), AllocError>
        requires { IsGap self.old.list self.old.links gap }
        ensures ok { OnOk result (self.new.list ≡ self.old.list ++ record { id = gap.id; state = state } ∷ []) }
        ensures room { OnOk result (self.old.room ≤ self.new.room + 1) }
        ensures err { OnErr result (self.new.list ≡ self.old.list) }
        ensures full { OnErr result (self.old.room ≡ 0) }
    {
        self.list.reserve(1)?;
        self.links.extend_from_slice(&[NOWHERE; BRANCHES])?;
        self.links[gap.link] = self.list.len();
        self.list.push(Request { id: gap.id, state })?;
        Ok(())
    }
}
