//! The job of `quote`: the files that the config names are opened and read, and what a sending of them
//! would come to is printed.

ghost use Rattle.std.specs.Prelude.{◌≡◌, ◌≢◌, ◌++◌, [], IfErr, IfOk, OnOk, option_map, string_bytes};
ghost use Rattle.std.specs.Io.KnownBytes.{Appends};
ghost use Rattle.sms_files.specs.Inputs.{IsFaultOfFiles, IsInput, TellsInput};
ghost use Rattle.sms_files.specs.Output.{WritesFront};
ghost use Rattle.sms_send.specs.ConfigFiles.{OfConfig};
ghost use Rattle.sms_send.specs.Faults.{IsReadFault, output_failed};
ghost use Rattle.sms_send.specs.PlainFiles.{sees};
ghost use Rattle.sms_send.specs.Quoted.{FailsQuote, FailsQuoteJob, FailsQuoting, BeginsAsAsked, HasQuote, BeginsNamedWarnings, PrintsQuote, Quotes, QuotesAsAsked, QuotesFiles, BeginsWarnings, QuotesNamed, warnings_of};
ghost use Rattle.sms_send.specs.Reading.{IsInputBy};

use crate::faults::context::{JobContext, is_at_length};
use crate::faults::fault::Fault;
use crate::faults::full_names::{FullNames, lines_at, name_at};
use crate::files::config_file::{ConfigFile, read_config};
use crate::files::open_input::{OpenInput, open_input};
use crate::files::opened::InputFiles;
use crate::files::plain_files::PlainFiles;
use crate::files::reading::{parse_config, read_files};
use crate::terminal::written::write_both;
use sms_devices::Screen;
use sms_files::memory::{NoMemory, append};
use sms_files::{Config, Input, quote_text, warnings_text};
use std::alloc::Global;
use std::io::{Read, Write};
use std::mem;

/// What is printed of an input, and its warnings with these lines behind them.
fn texts_of(alloc: Global, input: &Input, lines: &str) -> Result<(String, String), NoMemory>
    ensures quote { IfOk result (λ texts. HasQuote input.now (string_bytes texts.0)) }
    ensures warnings { IfOk result (λ texts. string_bytes texts.1 ≡ warnings_of input.now ++ lines.now) }
{
    let quote = quote_text(alloc, input)?;
    let mut warnings = warnings_text(alloc, input)?;
    append(&mut warnings, lines)?;
    Ok((quote, warnings))
}

/// Prints the quote of an input, and to standard error its warnings and these lines behind them.
fn quote_input<W: Write, E: Write>(
    alloc: Global,
    input: &Input,
    lines: &str,
    output: &mut W,
    error: &mut E,
) -> Result<u8, Fault>
    ensures status { IfOk result (λ status. status ≡ 0) }
    ensures printed { OnOk result (PrintsQuote input.now (W.contents output.old) (W.contents output.new)) }
    ensures warned { OnOk result (Appends (E.contents error.old) (E.contents error.new) (warnings_of input.now ++ lines.now)) }
    ensures refused { IfErr result (FailsQuoting input.now (W.contents output.old) (W.contents output.new)) }
    ensures front { IfErr result (λ fault. fault ≡ output_failed → WritesFront (E.contents error.old) (E.contents error.new) (warnings_of input.now ++ lines.now)) }
    ensures unwritten { IfErr result (λ fault. fault ≢ output_failed → (output.new ≡ output.old) × (error.new ≡ error.old)) }
{
    match texts_of(alloc, input, lines) {
        Ok((quote, warnings)) => write_both(output, error, quote.as_bytes(), warnings.as_bytes()),
        Err(_) => Err(Fault::OutOfMemory),
    }
}

/// Reads the files of a sending by this config, and prints their quote.
fn quote_files<A: Read + Drop, M: Read + Drop, T: Read + Drop, W: Write, E: Write>(
    alloc: Global,
    config: Config,
    accounts: A,
    messages: M,
    tariff: Option<T>,
    lines: &str,
    output: &mut W,
    error: &mut E,
) -> Result<u8, Fault>
    ensures status { IfOk result (λ status. status ≡ 0) }
    ensures quoted { OnOk result (Quotes (IsInputBy config (A.remaining accounts) (M.remaining messages) (option_map T.remaining tariff)) lines.now (W.contents output.old) (W.contents output.new) (E.contents error.old) (E.contents error.new)) }
    ensures refused { IfErr result (FailsQuote (IsInputBy config (A.remaining accounts) (M.remaining messages) (option_map T.remaining tariff)) (IsReadFault (IsFaultOfFiles (A.remaining accounts) (M.remaining messages) (option_map T.remaining tariff))) (W.contents output.old) (W.contents output.new)) }
    ensures front { IfErr result (λ fault. fault ≡ output_failed → BeginsWarnings (IsInputBy config (A.remaining accounts) (M.remaining messages) (option_map T.remaining tariff)) lines.now (E.contents error.old) (E.contents error.new)) }
    ensures unwritten { IfErr result (λ fault. fault ≢ output_failed → (output.new ≡ output.old) × (error.new ≡ error.old)) }
{
    match read_files(alloc, config, accounts, messages, tariff) {
        Ok(input) => {
            let quoted = quote_input(alloc, &input, lines, output, error);
            // The process ends next, which frees it at once.
            mem::forget(input);
            quoted
        }
        Err(fault) => Err(fault),
    }
}

/// Reads the config's octets and the files, and prints what a sending of them would come to: of each
/// message whether it passes and what it costs, and of each account what its messages take. Nothing is
/// sent. Texts that look as if a quote had been left open are warned of on standard error. If either
/// can't be written that is a fault of the output. The exit status is 0.
pub fn run_quote<A: Read + Drop, M: Read + Drop, T: Read + Drop, W: Write, E: Write>(
    alloc: Global,
    config: &[u8],
    accounts: A,
    messages: M,
    tariff: Option<T>,
    output: &mut W,
    error: &mut E,
) -> Result<u8, Fault>
    ensures status { IfOk result (λ status. status ≡ 0) }
    ensures quoted { OnOk result (Quotes (IsInput config.now (A.remaining accounts) (M.remaining messages) (option_map T.remaining tariff)) [] (W.contents output.old) (W.contents output.new) (E.contents error.old) (E.contents error.new)) }
    // A fault is of the first of these that has one, or of the quote of what they say.
    ensures refused { IfErr result (FailsQuote (IsInput config.now (A.remaining accounts) (M.remaining messages) (option_map T.remaining tariff)) (IsReadFault (TellsInput config.now (A.remaining accounts) (M.remaining messages) (option_map T.remaining tariff))) (W.contents output.old) (W.contents output.new)) }
    ensures front { IfErr result (λ fault. fault ≡ output_failed → BeginsWarnings (IsInput config.now (A.remaining accounts) (M.remaining messages) (option_map T.remaining tariff)) [] (E.contents error.old) (E.contents error.new)) }
    ensures unwritten { IfErr result (λ fault. fault ≢ output_failed → (output.new ≡ output.old) × (error.new ≡ error.old)) }
{
    match parse_config(alloc, config) {
        Ok(parsed) => quote_files(alloc, parsed, accounts, messages, tariff, "", output, error),
        Err(fault) => Err(fault),
    }
}

/// Reads the config of this name and the files that it names, and prints what a sending of them would
/// come to. Where details are wanted, the full names of the files follow on standard error.
fn quote_config<R: AllocGlobal + FullNames + InputFiles, W: Write, E: Write>(
    rt: &R,
    context: &mut JobContext,
    config: String,
    at_length: bool,
    output: &mut W,
    error: &mut E,
) -> Result<u8, Fault>
    ensures status { IfOk result (λ status. status ≡ 0) }
    ensures quoted { OnOk result (OfConfig (R.finds rt.now) (string_bytes config) (QuotesNamed (R.finds rt.now) (R.is_full rt.now) at_length (string_bytes config) (W.contents output.old) (W.contents output.new) (E.contents error.old) (E.contents error.new))) }
    ensures refused { IfErr result (FailsQuoteJob (R.finds rt.now) config (W.contents output.old) (W.contents output.new)) }
    ensures front { IfErr result (λ fault. fault ≡ output_failed → OfConfig (R.finds rt.now) (string_bytes config) (BeginsNamedWarnings (R.finds rt.now) (R.is_full rt.now) at_length (string_bytes config) (E.contents error.old) (E.contents error.new))) }
    ensures unwritten { IfErr result (λ fault. fault ≢ output_failed → (output.new ≡ output.old) × (error.new ≡ error.old)) }
{
    let kept = name_at(rt.alloc(), config.as_str(), at_length)?;
    let read = read_config(rt, config)?;
    let ConfigFile { config, .. } = read;
    context.note_files(rt.alloc(), &config.files);
    let lines = lines_at(rt.alloc(), rt, &kept, &config.files)?;
    let opened = open_input(rt, config)?;
    let OpenInput {
        config,
        accounts,
        messages,
        tariff,
    } = opened;
    let lines = lines.as_str();
    quote_files(
        rt.alloc(),
        config,
        accounts,
        messages,
        tariff,
        lines,
        output,
        error,
    )
}

/// Reads the config of this name and the files that it names, and prints what a sending of them would
/// come to. Where details are wanted, of each run or of this one, the full names of the files follow on
/// standard error.
pub fn quote_job<R: AllocGlobal + FullNames + InputFiles + Screen, W: Write, E: Write>(
    rt: &R,
    context: &mut JobContext,
    config: String,
    verbose: bool,
    refs: bool,
    output: &mut W,
    error: &mut E,
) -> Result<u8, Fault>
    ensures status { IfOk result (λ status. status ≡ 0) }
    ensures quoted { OnOk result (OfConfig (sees refs (R.finds rt.now)) (string_bytes config) (QuotesFiles (sees refs (R.finds rt.now)) (W.contents output.old) (W.contents output.new))) }
    ensures beside { OnOk result (QuotesAsAsked (sees refs (R.finds rt.now)) (R.is_full rt.now) (R.details rt.now) config verbose (W.contents output.old) (W.contents output.new) (E.contents error.old) (E.contents error.new)) }
    ensures refused { IfErr result (FailsQuoteJob (sees refs (R.finds rt.now)) config (W.contents output.old) (W.contents output.new)) }
    ensures front { IfErr result (λ fault. fault ≡ output_failed → BeginsAsAsked (sees refs (R.finds rt.now)) (R.is_full rt.now) (R.details rt.now) config verbose (E.contents error.old) (E.contents error.new)) }
    ensures unwritten { IfErr result (λ fault. fault ≢ output_failed → (output.new ≡ output.old) × (error.new ≡ error.old)) }
{
    let files = PlainFiles { rt, refs };
    let at_length = is_at_length(rt.has_details(), verbose);
    quote_config(&files, context, config, at_length, output, error)
}
