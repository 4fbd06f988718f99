//! What runs took, found by run and account.

ghost use Rattle.std.specs.Prelude.{◌≡◌, ◌++◌, ◌∷◌, [], None, Some, IfOk, OnErr, OnOk, find, option_map, position};
ghost use Rattle.std.specs.HashMap.{get_by_text};
ghost use Rattle.sms_ledger.specs.declared.entry.Stake.{Stake as TheStake};
ghost use Rattle.sms_ledger.specs.declared.entry.Stand.TheVariants.{Out};
ghost use Rattle.sms_ledger.specs.Books.{is_of, stand_of, with_stand};
ghost use Rattle.sms_ledger.specs.Kept.{ArePlaces, IsSound, state_of};

use crate::books::Books;
use crate::entry::{Stake, Stand, Taking};
use crate::name::RunAccount;
use crate::rows::{key_of, place_in};
use sms_files::memory::{self, NoMemory};
use std::alloc::Global;
use std::collections::HashMap;

/// A stake of what a run takes, and where it will be found.
pub(crate) fn add_stake(
    taken: &mut Vec<Stake>,
    places: &mut HashMap<String, usize>,
    alloc: Global,
    t: &Taking,
) -> Result<(), NoMemory>
    requires found { ArePlaces (λ k. get_by_text places.old k) taken.old.items }
    requires new { get_by_text places.old (t.now.of.run ++ t.now.of.account) ≡ None }
    ensures found { ArePlaces (λ k. get_by_text places.new k) taken.new.items }
    ensures ok { OnOk result (taken.new.items ≡ taken.old.items ++ record { of = t.now.of; stand = Out t.now.credits } ∷ []) }
    ensures err { OnErr result (taken.new.items ≡ taken.old.items) }
{
    let stake = Stake {
        of: t.of.copy(alloc)?,
        stand: Stand::Out(t.credits),
    };
    let key = key_of(alloc, &t.of)?;
    let place = taken.len();
    memory::push(taken, stake)?;
    match memory::insert(places, key, place) {
        Ok(_none) => Ok(()),
        Err(refused) => {
            drop(taken.pop());
            Err(refused)
        }
    }
}

/// Changes how a stake stands.
pub(crate) fn set_stand(taken: &mut Vec<Stake>, place: usize, of: &RunAccount, stand: Stand)
    requires { position (is_of of.now.run of.now.account) taken.old.items ≡ Some place }
    ensures { taken.new.items ≡ with_stand of.now.run of.now.account stand taken.old.items }
{
    let stake = &mut taken[place];
    stake.stand = stand;
}

/// How the stake at a place stands.
pub(crate) fn stand_at(taken: &[Stake], place: usize, of: &RunAccount) -> Stand
    requires { position (is_of of.now.run of.now.account) taken.now ≡ Some place }
    ensures { option_map (λ (stake : TheStake). stake.stand) (find (is_of of.now.run of.now.account) taken.now) ≡ Some result }
{
    taken[place].stand
}

/// How what a run took of an account stands, if it took some.
pub(crate) fn stand_in(
    books: &Books,
    alloc: Global,
    of: &RunAccount,
) -> Result<Option<Stand>, NoMemory>
    requires { IsSound books.now }
    ensures { IfOk result (λ stand. stand ≡ stand_of of.now.run of.now.account (state_of books.now)) }
{
    match place_in(&books.places, alloc, of)? {
        Some(place) => Ok(Some(stand_at(&books.taken, place, of))),
        None => Ok(None),
    }
}
