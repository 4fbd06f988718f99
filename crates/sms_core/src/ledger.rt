//! The accounts' running balances and the requests that draw on them.

ghost use Rattle.std.specs.Prelude.{◌≡◌, ◌==◌, ◌+◌, ◌<◌, ◌≤◌, ℕ, [], ◌∷◌, ◌++◌, Some, None, IfOk, IfSome, OnOk, OnErr, is_some, length, map, nat_lt, not, replicate, slice_index_or, slice_set, sum_by, if◌then◌else◌};
ghost use Rattle.sms_core.specs.Rows.{row_of};
ghost use Rattle.sms_core.specs.State.{entry_of, find_request, changed};
ghost use Rattle.sms_core.specs.Steps.{is_ready_state, reserved_request};
ghost use Rattle.sms_core.specs.declared.request.RequestState.{RequestState};
ghost use Rattle.sms_core.specs.Requests.{StandsAt};
ghost use Rattle.sms_core.specs.Links.{IsGap};
ghost use Rattle.sms_core.specs.Limits.{largest_cost, most_accounts, most_attempts, most_topped};
ghost use Rattle.sms_core.specs.Ledger.{IsFound, IsLive, is_open_named, one_if_open, one_if_ready, became};

use crate::request::{Phase, Request, RequestState};
use crate::requests::{Gap, Requests};
use crate::row::Row;
use std::alloc::{AllocError, Global};
use std::marker::Model;

#[derive(Debug, Drop)]
pub(crate) struct Ledger {
    attempts: u32,
    rows: Vec<Row>,
    requests: Requests,
}

impl Model for Ledger {
    ghost use Rattle.std.specs.Prelude.{map};
    ghost use Rattle.sms_core.specs.Ledger.{Records, IsKept};

    ghost Value = { Records };

    ghost view = { λ l. record { attempts = l.attempts; topped = map (λ r. r.topped) l.rows.items; requests = l.requests.list; links = l.requests.links; room = l.requests.room } };

    ghost invariant = { λ l. IsKept l.attempts l.rows.items l.requests.list };
}

impl Ledger {
    pub(crate) fn attempts(&self) -> u32
        ensures { result ≡ self.now.attempts }
    {
        self.attempts
    }

    pub(crate) fn accounts(&self) -> usize
        ensures all { result ≡ length self.now.topped }
        ensures bound { result ≤ most_accounts }
    {
        self.rows.len()
    }

    /// The account's balance.
    pub(crate) fn row(&self, account: u32) -> Option<Row>
        ensures sums { result ≡ (if nat_lt account (length self.now.topped)
            then Some (row_of (slice_index_or self.now.topped account 0) account (map entry_of self.now.requests))
            else None) }
        ensures limit { IfSome result (λ r. r.topped ≤ most_topped) }
    {
        if (account as usize) < self.rows.len() {
            Some(self.rows[account as usize])
        } else {
            None
        }
    }

    /// Adds to what an account was topped up with.
    pub(crate) fn top_up(&mut self, account: u32, amount: u64)
        requires known { account < length self.old.topped }
        requires limit { slice_index_or self.old.topped account 0 + amount ≤ most_topped }
        ensures { self.new ≡ record self.old { topped = slice_set self.old.topped account (slice_index_or self.old.topped account 0 + amount) } }
    {
        let row = &mut self.rows[account as usize];
        row.topped += amount;
        row.free += amount;
    }

    /// The request of this name where it may be sent, and its place.
    pub(crate) fn ready(&self, id: u32) -> Option<(usize, Request)>
        ensures exists { is_some result ≡ is_ready_state (find_request id self.now.requests) }
        ensures found { IfSome result (λ p. IsFound self.now.requests id p.0 p.1 Phase.Ready) }
        ensures left { IfSome result (λ p. p.1.state.attempts < self.now.attempts) }
        ensures bound { IfSome result (λ p. p.1.state.attempts < most_attempts) }
    {
        let (place, request) = self.requests.find(id)?;
        if request.state.phase == Phase::Ready {
            Some((place, request))
        } else {
            None
        }
    }

    /// The request of this name, which some slot has, and its place.
    pub(crate) fn waiting(&self, id: u32) -> (usize, Request)
        requires { 0 < sum_by (is_open_named id) self.now.requests }
        ensures found { IsFound self.now.requests id result.0 result.1 Phase.Open }
        ensures bound { result.1.state.attempts ≤ self.now.attempts }
    {
        match self.requests.find(id) {
            Some(found) => found,
            None => unreachable!(),
        }
    }

    /// Gives a ready or open request its next phase, and moves its credits as that says.
    pub(crate) fn advance(&mut self, place: usize, request: Request, attempts: u32, phase: Phase)
        requires at { StandsAt self.old.requests place request }
        requires live { IsLive request.state.phase }
        requires left { attempts + one_if_ready phase ≤ self.old.attempts }
        ensures requests { (f : RequestState → RequestState) → f request.state ≡ (became attempts phase request).state
            → self.new ≡ record self.old { requests = changed request.id f self.old.requests } }
        ensures open { (id : ℕ) → sum_by (is_open_named id) self.new.requests + is_open_named id request
            ≡ sum_by (is_open_named id) self.old.requests + (if request.id == id then one_if_open phase else 0) }
        ensures room { self.new.room ≡ self.old.room }
    {
        let state = request.state;
        self.rows[state.account as usize].move_credits(phase, u64::from(state.cost));
        self.requests.set(
            place,
            Request {
                id: request.id,
                state: RequestState {
                    attempts,
                    phase,
                    ..state
                },
            },
        );
    }

    /// Sets the cost of a new request aside.
    pub(crate) fn reserve(&mut self, gap: Gap, account: u32, cost: u32) -> Result<(), AllocError>
        requires known { account < length self.old.topped }
        requires new { IsGap self.old.requests self.old.links gap }
        requires small { cost ≤ largest_cost }
        requires credit { cost ≤ (row_of (slice_index_or self.old.topped account 0) account (map entry_of self.old.requests)).free }
        ensures ok { OnOk result (self.new.requests ≡ self.old.requests ++ reserved_request gap.id account cost ∷ []) }
        ensures err { OnErr result (self.new.requests ≡ self.old.requests) }
        ensures topped { self.new.topped ≡ self.old.topped }
        ensures attempts { self.new.attempts ≡ self.old.attempts }
        ensures room { OnOk result (self.old.room ≤ self.new.room + 1) }
        ensures full { OnErr result (self.old.room ≡ 0) }
    {
        let state = RequestState {
            account,
            cost,
            attempts: 0,
            phase: Phase::Ready,
        };
        self.requests.push(gap, state)?;
        let row = &mut self.rows[account as usize];
        row.free -= u64::from(cost);
        row.reserved += u64::from(cost);
        Ok(())
    }

    /// Makes room for more requests.
    pub(crate) fn make_room(&mut self, additional: usize) -> Result<(), AllocError>
        ensures topped { self.new.topped ≡ self.old.topped }
        ensures attempts { self.new.attempts ≡ self.old.attempts }
        ensures requests { self.new.requests ≡ self.old.requests }
        ensures room { OnOk result (additional ≤ self.new.room) }
    {
        self.requests.reserve(additional)
    }

    /// Where a request of this name goes, if there is none.
    pub(crate) fn gap(&self, id: u32) -> Option<Gap>
        ensures exists { is_some result ≡ not (is_some (find_request id self.now.requests)) }
        ensures gap { IfSome result (λ gap. IsGap self.now.requests self.now.links gap) }
        ensures named { IfSome result (λ gap. gap.id ≡ id) }
    {
        self.requests.gap(id)
    }

    pub(crate) fn find(&self, id: u32) -> Option<RequestState>
        ensures { result ≡ find_request id self.now.requests }
    {
        match self.requests.find(id) {
            Some((_, request)) => Some(request.state),
            None => None,
        }
    }

    pub(crate) fn requests(&self) -> &[Request]
        ensures { result.now ≡ self.now.requests }
    {
        self.requests.as_slice()
    }

    /// A ledger of accounts without credits.
    pub(crate) fn new(alloc: Global, accounts: u32, attempts: u32) -> Result<Ledger, AllocError>
        requires some { 1 ≤ attempts }
        requires bound { attempts ≤ most_attempts }
        requires accounts { accounts ≤ most_accounts }
        ensures { IfOk result (λ l. (l.attempts ≡ attempts) × (l.topped ≡ replicate accounts 0) × (l.requests ≡ [])) }
    {
        let none = Row {
            topped: 0,
            free: 0,
            reserved: 0,
            charged: 0,
            returned: 0,
        };
        Ok(Ledger {
            attempts,
            rows: vec![in alloc; none; accounts as usize]?,
            requests: Requests::new(alloc)?,
        })
    }
}
