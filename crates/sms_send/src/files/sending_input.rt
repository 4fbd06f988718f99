//! The input of a sending: its config, and what the files say that the config names.

ghost use Rattle.std.specs.Prelude.{◌≡◌, IfErr, IfOk, OnOk, option_map, true};
ghost use Rattle.sms_files.specs.Quoting.{EndsQuoted};
ghost use Rattle.sms_journal.specs.Digests.{digests_of as of_files};
ghost use Rattle.sms_send.specs.Faults.{IsReadFault};
ghost use Rattle.sms_send.specs.Reading.{AreDigestsOf, FailsReading, IsFaultOfOctets, IsFaultOfRecords, IsInputOf, IsOpenQuoteOf, IsReadFrom};
ghost use Rattle.sms_send.specs.Runs.{tariff_in};

use crate::faults::fault::Fault;
use crate::files::named_files::{NamedFiles, read_opened};
use crate::files::open_input::OpenInput;
use crate::files::reading::read_files;
use sms_files::{Config, Input, check_quotes};
use sms_journal::{Digests, digests_of};
use std::alloc::Global;
use std::io::Read;
use std::thread;
use std::thread::Threads;

/// Refuses a messages file that ends within a quote, of which this input was read.
fn check_open(alloc: Global, named: &NamedFiles, input: &Input) -> Result<(), Fault>
    ensures closed { OnOk result (¬ EndsQuoted named.now.messages.items) }
    ensures refused { IfErr result (IsReadFault (IsOpenQuoteOf named.now input.now)) }
{
    match check_quotes(alloc, named.messages.as_slice(), input) {
        Ok(()) => Ok(()),
        Err(fault) => Err(Fault::from(fault)),
    }
}

/// What the octets of files say beside a config.
fn read_octets(alloc: Global, config: Config, named: &NamedFiles) -> Result<Input, Fault>
    ensures read { IfOk result (IsInputOf config named.now) }
    ensures refused { IfErr result (IsFaultOfRecords named.now) }
{
    read_files(
        alloc,
        config,
        named.accounts.as_slice(),
        named.messages.as_slice(),
        named.tariff(),
    )
}

/// What the octets of files say beside a config. Strictly, a messages file that ends within a quote is
/// refused.
fn input_of(alloc: Global, config: Config, named: &NamedFiles, strict: bool) -> Result<Input, Fault>
    ensures read { IfOk result (IsInputOf config named.now) }
    ensures closed { IfOk result (λ input. strict ≡ true → ¬ EndsQuoted named.now.messages.items) }
    ensures refused { IfErr result (IsFaultOfOctets strict config named.now) }
{
    let input = match read_octets(alloc, config, named) {
        Ok(input) => input,
        Err(fault) => return Err(fault),
    };
    if !strict {
        return Ok(input);
    }
    match check_open(alloc, named, &input) {
        Ok(()) => Ok(input),
        Err(fault) => {
            drop(input);
            Err(fault)
        }
    }
}

/// The input of a sending without a journal. Strictly, the files are read to their ends first, and a messages
/// file that ends within a quote is refused.
pub fn read_plain<F: Read + Drop>(
    alloc: Global,
    opened: OpenInput<F>,
    strict: bool,
) -> Result<Input, Fault>
    ensures read { IfOk result (IsReadFrom strict strict opened.config (F.remaining opened.accounts) (F.remaining opened.messages) (option_map F.remaining opened.tariff)) }
    ensures refused { IfErr result (FailsReading strict strict opened.config (F.remaining opened.accounts) (F.remaining opened.messages) (option_map F.remaining opened.tariff)) }
{
    let OpenInput {
        config,
        accounts,
        messages,
        tariff,
    } = opened;
    if !strict {
        return read_files(alloc, config, accounts, messages, tariff);
    }
    let named = match read_opened(alloc, accounts, messages, tariff) {
        Ok(named) => named,
        Err(fault) => return Err(fault),
    };
    input_of(alloc, config, &named, true)
}

/// The input of a sending with a journal, and the digests of its files.
#[derive(Drop)]
pub struct NotedInput {
    pub input: Input,
    pub digests: Digests,
}

/// The digests of a run's files.
fn digests_in(config: &[u8], named: &NamedFiles) -> Digests
    ensures { result ≡ of_files config.now named.now.accounts.items named.now.messages.items (tariff_in named.now) }
{
    digests_of(
        config,
        named.accounts.as_slice(),
        named.messages.as_slice(),
        named.tariff(),
    )
}

/// What the octets of files say beside a config of these octets, and their digests, which are made in a thread of
/// their own: they take as long as the records.
pub(crate) fn read_digested<R: Threads>(
    rt: &R,
    alloc: Global,
    octets: &[u8],
    config: Config,
    named: &NamedFiles,
    strict: bool,
) -> Result<NotedInput, Fault>
    ensures read { IfOk result (λ noted. IsInputOf config named.now noted.input) }
    ensures closed { IfOk result (λ noted. strict ≡ true → ¬ EndsQuoted named.now.messages.items) }
    ensures digests { IfOk result (λ noted. noted.digests ≡ of_files octets.now named.now.accounts.items named.now.messages.items (tariff_in named.now)) }
    ensures refused { IfErr result (IsFaultOfOctets strict config named.now) }
{
    let (digests, input) = thread::join(
        rt,
        || -> Digests
            ensures { result ≡ of_files octets.entry.now named.entry.now.accounts.items named.entry.now.messages.items (tariff_in named.entry.now) }
        { digests_in(octets, named) },
        move || input_of(alloc, config, named, strict),
    );
    match input {
        Ok(input) => Ok(NotedInput { input, digests }),
        Err(fault) => Err(fault),
    }
}

/// Reads the files of a sending with a journal to their ends, by a config of these octets. Strictly, a messages
/// file that ends within a quote is refused.
pub fn read_noted<R: Threads, F: Read + Drop>(
    rt: &R,
    alloc: Global,
    octets: &[u8],
    opened: OpenInput<F>,
    strict: bool,
) -> Result<NotedInput, Fault>
    ensures read { IfOk result (λ noted. IsReadFrom true strict opened.config (F.remaining opened.accounts) (F.remaining opened.messages) (option_map F.remaining opened.tariff) noted.input) }
    ensures digests { IfOk result (λ noted. AreDigestsOf octets.now (F.remaining opened.accounts) (F.remaining opened.messages) (option_map F.remaining opened.tariff) noted.digests) }
    ensures refused { IfErr result (FailsReading true strict opened.config (F.remaining opened.accounts) (F.remaining opened.messages) (option_map F.remaining opened.tariff)) }
{
    let OpenInput {
        config,
        accounts,
        messages,
        tariff,
    } = opened;
    let named = match read_opened(alloc, accounts, messages, tariff) {
        Ok(named) => named,
        Err(fault) => return Err(fault),
    };
    match read_digested(rt, alloc, octets, config, &named, strict) {
        Ok(noted) => Ok(noted),
        Err(fault) => Err(fault),
    }
}
