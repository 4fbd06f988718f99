//! The jobs of `topup` and `balance`: what is paid into a ledger, and where its credits are.

ghost use Rattle.std.specs.Prelude.{◌≡◌, ◌≢◌, ◌⊎◌, IfErr, IfOk, OnOk, string_bytes};
ghost use Rattle.std.specs.Io.KnownBytes.{Appends, Keeps};
ghost use Rattle.sms_files.specs.Output.{WritesFront};
ghost use Rattle.sms_ledger.specs.Balance.{account_text, balance_text};
ghost use Rattle.sms_ledger.specs.InMemory.{state_in};
ghost use Rattle.sms_send.specs.Faults.{fault_of_opening as opening_fault, fault_of_use as use_fault, output_failed};
ghost use Rattle.sms_send.specs.declared.faults.fault.Fault.TheVariants.{OutOfMemory};
ghost use Rattle.sms_send.specs.LedgerKinds.{kind_said};
ghost use Rattle.sms_send.specs.Ledgers.{Books, FailsBalance, FailsBooking, FailsReading, FailsToKeep, FailsToTake, FailsTopUp, HasLine, IsRead, LacksLine, PrintsBalance, Takes, TopsUp};

use crate::args::ledger_args::TopUpArgs;
use crate::faults::fault::Fault;
use crate::jobs::ledger_kind::kind_of;
use sms_devices::{HeldFile, LedgerFailure, LedgerFiles, append_text, unix_ms};
use sms_files::write_out;
use sms_ledger::{Ledger, Payment, whole_len, with_header};
use std::alloc::Global;
use std::io::Write;
use std::time::Clock;

/// A ledger that was read of its file.
#[derive(Drop)]
pub(crate) struct ReadLedger {
    pub(crate) octets: Vec<u8>,
    pub(crate) ledger: Ledger,
}

/// What is appended for a payment, and what is printed of it.
struct Posted {
    /// None where the same payment is booked.
    line: Option<String>,
    balance: String,
}

/// The fault of a ledger's file that can't be used.
fn fault_of_use(why: LedgerFailure) -> Fault
    ensures { result ≡ use_fault why }
{
    match why {
        LedgerFailure::OutOfMemory(_) => Fault::OutOfMemory,
        why => Fault::Ledger(why),
    }
}

/// The fault of a ledger's file of this name that can't be had.
pub(crate) fn fault_of_opening(name: String, why: LedgerFailure) -> Fault
    ensures { result ≡ opening_fault name why }
{
    match why {
        LedgerFailure::Unopened(kind) => Fault::LedgerFile(name, kind),
        why => fault_of_use(why),
    }
}

/// The ledger of a file that is held.
pub(crate) fn read_ledger<F: HeldFile>(alloc: Global, file: &F) -> Result<ReadLedger, Fault>
    ensures read { IfOk result (λ read. IsRead F.octets file.now read.octets.items (state_in read.ledger)) }
    ensures refused { IfErr result (FailsReading F.errs F.octets file.now) }
{
    let octets = match file.read_whole(alloc) {
        Ok(octets) => octets,
        Err(why) => return Err(fault_of_use(why)),
    };
    match Ledger::read(alloc, octets.as_slice()) {
        Ok(ledger) => Ok(ReadLedger { octets, ledger }),
        Err(flaw) => {
            drop(octets);
            Err(Fault::from(flaw))
        }
    }
}

/// Books a payment in a ledger in memory, unless the same is booked.
#[tactic(auto, using(crate::proofs::Paying::has_line, crate::proofs::Paying::unposted))]
fn post_payment(
    alloc: Global,
    time: u64,
    ledger: &mut Ledger,
    payment: Payment,
) -> Result<Posted, Fault>
    ensures line { IfOk result (λ posted. HasLine time payment (state_in ledger.old) (state_in ledger.new) posted.line) }
    ensures balance { IfOk result (λ posted. string_bytes posted.balance ≡ account_text (state_in ledger.new) payment.account) }
    ensures refused { IfErr result (LacksLine payment (state_in ledger.old)) }
{
    let account = match payment.account.copy(alloc) {
        Ok(account) => account,
        Err(_memory) => {
            drop(payment);
            return Err(Fault::OutOfMemory);
        }
    };
    let line = match ledger.top_up(alloc, time, payment) {
        Ok(line) => line,
        Err(refusal) => {
            drop(account);
            return Err(Fault::from(refusal));
        }
    };
    let balance = ledger.account_text(alloc, &account);
    drop(account);
    match balance {
        Ok(balance) => Ok(Posted { line, balance }),
        Err(_memory) => {
            drop(line);
            Err(Fault::OutOfMemory)
        }
    }
}

/// Makes durable what stands in a file.
fn keep<F: HeldFile>(file: &mut F) -> Result<(), Fault>
    ensures durable { OnOk result (F.stored file.new ≡ F.octets file.new) }
    ensures kept { Keeps (F.octets file.old) (F.octets file.new) }
    ensures failed { IfErr result (FailsToKeep F.errs) }
    ensures same { F.opening file.new ≡ F.opening file.old }
{
    match file.sync() {
        Ok(()) => Ok(()),
        Err(kind) => Err(Fault::Ledger(LedgerFailure::Unwritten(kind))),
    }
}

/// Appends a line to a file of which these octets were read, if there is one, and makes durable what stands there.
pub(crate) fn put_line<F: HeldFile>(
    alloc: Global,
    file: &mut F,
    octets: &[u8],
    line: Option<String>,
) -> Result<(), Fault>
    ensures taken { OnOk result (Takes octets.now (F.octets file.old) (F.octets file.new) line) }
    ensures durable { OnOk result (F.stored file.new ≡ F.octets file.new) }
    ensures failed { IfErr result (FailsToTake F.errs octets.now (F.octets file.old) (F.octets file.new) line) }
    ensures same { F.opening file.new ≡ F.opening file.old }
{
    let Some(line) = line else {
        return keep(file);
    };
    let whole = whole_len(octets);
    let text = match with_header(alloc, &octets[..whole], line) {
        Ok(text) => text,
        Err(_memory) => return Err(Fault::OutOfMemory),
    };
    match append_text(file, whole, text.as_str()) {
        Ok(()) => Ok(()),
        Err(why) => Err(Fault::Ledger(why)),
    }
}

/// Books a payment that is made at this time in the ledger of a file, unless the same is booked. Gives the balance of its
/// account, once the disk has the payment.
fn book_payment<F: HeldFile>(
    alloc: Global,
    time: u64,
    file: &mut F,
    payment: Payment,
) -> Result<String, Fault>
    ensures booked { IfOk result (λ printed. Books F.octets F.stored payment file.old file.new (string_bytes printed)) }
    ensures failed { IfErr result (FailsBooking F.errs F.octets payment file.old file.new) }
    ensures same { F.opening file.new ≡ F.opening file.old }
{
    let read = match read_ledger(alloc, file) {
        Ok(read) => read,
        Err(fault) => {
            drop(payment);
            return Err(fault);
        }
    };
    let ReadLedger { octets, mut ledger } = read;
    let posted = post_payment(alloc, time, &mut ledger, payment);
    drop(ledger);
    match posted {
        Ok(Posted { line, balance }) => {
            match put_line(alloc, file, octets.as_slice(), line) {
                Ok(()) => Ok(balance),
                Err(fault) => {
                    drop(balance);
                    Err(fault)
                }
            }
        }
        Err(fault) => Err(fault),
    }
}

/// Prints a text. The exit status is 0.
pub(crate) fn print<W: Write>(output: &mut W, text: &str) -> Result<u8, Fault>
    ensures status { IfOk result (λ status. status ≡ 0) }
    ensures printed { OnOk result (Appends (W.contents output.old) (W.contents output.new) text.now) }
    ensures front { WritesFront (W.contents output.old) (W.contents output.new) text.now }
    ensures failed { IfErr result (λ fault. fault ≡ output_failed) }
{
    match write_out(output, text.as_bytes()) {
        Ok(()) => Ok(0),
        Err(fault) => Err(Fault::from(fault)),
    }
}

/// Books a payment in a ledger's file, which is made if it isn't there, unless the same is booked; and prints the balance
/// of its account, once the disk has the payment. The exit status is 0.
pub fn topup_job<R: AllocGlobal + Clock + LedgerFiles, W: Write>(
    rt: &R,
    order: TopUpArgs,
    output: &mut W,
) -> Result<u8, Fault>
    ensures status { IfOk result (λ status. status ≡ 0) }
    ensures booked { OnOk result (TopsUp (R.holds_ledger rt.now) R.LedgerFile.octets R.LedgerFile.stored R.LedgerFile.opening R.LedgerFile.is_closed order (W.contents output.old) (W.contents output.new)) }
    ensures kind { OnOk result (R.has_kind rt.now (string_bytes order.ledger) (kind_said order.trial)) }
    ensures refused { IfErr result (FailsTopUp (R.holds_ledger rt.now) (R.lacks_ledger rt.now) R.LedgerFile.errs R.LedgerFile.octets R.LedgerFile.stored R.LedgerFile.opening R.LedgerFile.is_closed order (W.contents output.old) (W.contents output.new)) }
    ensures unwritten { IfErr result (λ fault. fault ≢ output_failed → output.new ≡ output.old) }
{
    let TopUpArgs {
        ledger,
        trial,
        payment,
    } = order;
    let mut file = match rt.open_kind(ledger.as_str(), kind_of(trial), true) {
        Ok(file) => file,
        Err(why) => {
            drop(payment);
            return Err(fault_of_opening(ledger, why));
        }
    };
    drop(ledger);
    let booked = book_payment(rt.alloc(), unix_ms(rt), &mut file, payment);
    file.close();
    match booked {
        Ok(balance) => print(output, balance.as_str()),
        Err(fault) => Err(fault),
    }
}

/// Prints where the credits of each account of a ledger are. The exit status is 0.
pub fn balance_job<R: AllocGlobal + LedgerFiles, W: Write>(
    rt: &R,
    name: String,
    output: &mut W,
) -> Result<u8, Fault>
    ensures status { IfOk result (λ status. status ≡ 0) }
    ensures printed { OnOk result (PrintsBalance (R.holds_ledger rt.now) R.LedgerFile.octets (string_bytes name) (W.contents output.old) (W.contents output.new)) }
    ensures refused { IfErr result (FailsBalance (R.holds_ledger rt.now) (R.lacks_ledger rt.now) R.LedgerFile.errs R.LedgerFile.octets name (W.contents output.old) (W.contents output.new)) }
    ensures unwritten { IfErr result (λ fault. fault ≢ output_failed → output.new ≡ output.old) }
{
    let file = match rt.view_ledger(name.as_str()) {
        Ok(file) => file,
        Err(why) => return Err(fault_of_opening(name, why)),
    };
    drop(name);
    let read = read_ledger(rt.alloc(), &file);
    file.close();
    match read {
        Ok(ReadLedger { octets, ledger }) => {
            drop(octets);
            print_table(rt.alloc(), ledger, output)
        }
        Err(fault) => Err(fault),
    }
}

/// Prints where the credits of each account are. The exit status is 0.
fn print_table<W: Write>(alloc: Global, ledger: Ledger, output: &mut W) -> Result<u8, Fault>
    ensures status { IfOk result (λ status. status ≡ 0) }
    ensures printed { OnOk result (Appends (W.contents output.old) (W.contents output.new) (balance_text (state_in ledger))) }
    ensures failed { IfErr result (λ fault. (fault ≡ OutOfMemory) ⊎ ((fault ≡ output_failed) × WritesFront (W.contents output.old) (W.contents output.new) (balance_text (state_in ledger)))) }
    ensures unwritten { IfErr result (λ fault. fault ≢ output_failed → output.new ≡ output.old) }
{
    let table = ledger.balance_text(alloc);
    drop(ledger);
    match table {
        Ok(table) => print(output, table.as_str()),
        Err(_memory) => Err(Fault::OutOfMemory),
    }
}
