//! What a run's files say of each message: who pays, and in how many parts it is sent.

ghost use Rattle.std.specs.Prelude.{◌≡◌, IfOk, length};
ghost use Rattle.std.specs.List.{AllZip};
ghost use Rattle.sms_journal.specs.Plans.{IsPlan, account_of as account_in_book, countable, may_refuse as refusal_fits};
ghost use Rattle.sms_message.specs.Submits.{parts_for};

use sms_book::Tariff;
use sms_files::memory::{self, NoMemory};
use sms_message::{Message, MessageRefusal, has_addresses, part_cost};
use sms_segment::laws::the_parts_tell_what_is_too_long;
use std::alloc::Global;

/// A message as a report speaks of it.
#[derive(Clone, Copy, Debug, PartialEq, Eq)]
pub(crate) struct Plan {
    /// The account's place in the book, where the book has it.
    pub(crate) account: Option<usize>,
    /// Whether both addresses are good.
    pub(crate) addresses: bool,
    /// In how many parts it is sent; 0 where no header can count them.
    pub(crate) parts: u8,
    /// What each part costs, in credits.
    pub(crate) cost: u32,
}

/// In how many parts a message is sent; 0 where no header can count them.
fn count_of(alloc: Global, long: bool, message: &Message) -> Result<u8, NoMemory>
    ensures { IfOk result (λ count. count ≡ countable (length (parts_for long message.now))) }
{
    match memory::count_parts(alloc, long, message)? {
        Some(count) => Ok(count),
        None => {
            the_parts_tell_what_is_too_long();
            Ok(0)
        }
    }
}

/// The account, where a book with this many has it.
fn account_of(accounts: usize, account: Option<usize>) -> Option<usize>
    ensures { result ≡ account_in_book accounts account }
{
    match account {
        Some(account) => {
            if account < accounts {
                Some(account)
            } else {
                None
            }
        }
        None => None,
    }
}

/// The plan of a message.
fn plan_of(
    alloc: Global,
    long: bool,
    tariff: &Tariff,
    accounts: usize,
    message: &Message,
) -> Result<Plan, NoMemory>
    ensures { IfOk result (IsPlan long tariff.now accounts message.now) }
{
    let parts = count_of(alloc, long, message)?;
    Ok(Plan {
        account: account_of(accounts, message.account),
        addresses: has_addresses(message),
        parts,
        cost: part_cost(tariff, message),
    })
}

/// The plan of each message.
pub(crate) fn plans_of(
    alloc: Global,
    long: bool,
    tariff: &Tariff,
    accounts: usize,
    messages: &[Message],
) -> Result<Vec<Plan>, NoMemory>
    ensures { IfOk result (λ plans. AllZip (IsPlan long tariff.now accounts) messages.now plans.items) }
{
    let mut plans = Vec::new(alloc);
    for message in messages {
        let plan = plan_of(alloc, long, tariff, accounts, message)?;
        memory::push(&mut plans, plan)?;
    }
    Ok(plans)
}

/// Whether a message may be refused as a whole for this reason.
pub(crate) fn may_refuse(plan: &Plan, refusal: MessageRefusal) -> bool
    ensures { result ≡ refusal_fits plan.now refusal }
{
    let known = plan.account.is_some();
    match refusal {
        MessageRefusal::NoAccount => !known,
        MessageRefusal::BadAddress => known && !plan.addresses,
        MessageRefusal::TooLong => known && plan.addresses && plan.parts == 0,
        MessageRefusal::NoCredit => known && plan.addresses && plan.parts >= 1,
        MessageRefusal::BindClosed => true,
        MessageRefusal::OutOfMemory => known && plan.addresses,
    }
}
