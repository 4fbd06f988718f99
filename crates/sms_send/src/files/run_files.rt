//! The files of a run as octets: those that its config names, and one that was written of it.

ghost use Rattle.std.specs.Prelude.{◌≡◌, ◌⊎◌, Err, IfErr, IfOk, None, Ok, string_bytes};
ghost use Rattle.sms_send.specs.Headed.{FailsMessages, SplitsWritten};
ghost use Rattle.sms_send.specs.Opened.{FailsReadingFile};
ghost use Rattle.sms_send.specs.Runs.{AreNamed, FailsHeaded, FailsNamed, FailsNamedFiles, FailsRunFiles, IsHeadedBy, IsRun, IsRunBy};
ghost use Rattle.sms_send.specs.declared.faults.fault.Fault.TheVariants.{OutOfMemory};

use crate::args::send_args::ResumeArgs;
use crate::faults::context::{JobContext, is_at_length};
use crate::faults::exposed::{FileModes, read_warned};
use crate::faults::fault::Fault;
use crate::files::config_file::{ConfigFile, read_config};
use crate::files::headed::{RunParts, files_with, run_parts};
use crate::files::named_files::{NamedFiles, read_opened};
use crate::files::open_input::{OpenInput, open_input};
use crate::files::opened::{InputFiles, octets_of};
use sms_devices::Screen;
use sms_files::FileNames;
use sms_ledger::Run;
use std::alloc::Global;
use std::io::Eprint;
use std::thread::Threads;
use std::time::Clock;

/// The octets of a run's config, of the files that it names, and of what was written of the run: its
/// journal, or its report.
#[derive(Drop)]
pub struct RunFiles {
    pub config: Vec<u8>,
    /// The names in the config.
    pub names: FileNames,
    pub named: NamedFiles,
    pub written: Vec<u8>,
    /// Its name in a ledger, where its accounts are those of one: they stand before its journal then.
    pub run: Option<Run>,
    /// How many octets stand there.
    pub before: usize,
}

/// Reads the config of this name, the files that it names, and then the file that was written of the run.
pub fn read_run<R: AllocGlobal + InputFiles>(
    rt: &R,
    context: &mut JobContext,
    config: String,
    written: String,
) -> Result<RunFiles, Fault>
    ensures read { IfOk result (IsRun (R.finds rt.now) (string_bytes config) (string_bytes written)) }
    ensures refused { IfErr result (FailsRunFiles (R.finds rt.now) config written) }
{
    let read = read_config(rt, config)?;
    read_by(rt, context, read, written)
}

/// The same of a run that goes on. Where details are wanted, standard error is warned if others can read a password in
/// its config.
pub fn read_warned_run<R: AllocGlobal + Clock + Eprint + FileModes + InputFiles + Screen + Threads>(
    rt: &R,
    context: &mut JobContext,
    order: &ResumeArgs,
) -> Result<RunFiles, Fault>
    ensures read { IfOk result (IsRun (R.finds rt.now) (string_bytes order.now.config) (string_bytes order.now.journal.name)) }
    ensures refused { IfErr result (FailsNamed (R.finds rt.now) (string_bytes order.now.config) (string_bytes order.now.journal.name)) }
{
    let at_length = !order.quiet && is_at_length(rt.has_details(), order.verbose);
    let config = String::from_str(rt.alloc(), order.config.as_str())?;
    let read = read_warned(rt, config, at_length)?;
    let written = String::from_str(rt.alloc(), order.journal.name.as_str())?;
    read_by(rt, context, read, written)
}

/// The files that a config names, and then the file of this name.
fn read_by<R: AllocGlobal + InputFiles>(
    rt: &R,
    context: &mut JobContext,
    read: ConfigFile,
    written: String,
) -> Result<RunFiles, Fault>
    ensures read { IfOk result (IsRunBy (R.finds rt.now) read (string_bytes written)) }
    ensures refused { IfErr result (λ fault. (fault ≡ OutOfMemory) ⊎ (FailsNamedFiles (R.finds rt.now) read.config.files fault ⊎ FailsReadingFile (R.finds rt.now) written fault ⊎ FailsHeaded (R.finds rt.now) (string_bytes written) read.config.files fault)) }
{
    context.note_config(rt.alloc(), &read.config);
    // It says whether the config's accounts file is read. That it can't be had is the last fault, all the same.
    let written = octets_of(rt, written);
    match parts_in(rt.alloc(), &written) {
        Ok(Some(parts)) => {
            drop(written);
            read_headed(rt, read, parts)
        }
        Ok(None) => read_unheaded(rt, read, written),
        Err(fault) => {
            drop(written);
            Err(fault)
        }
    }
}

/// The parts of what was written of a run, if it could be read and is the journal of a run of a ledger.
fn parts_in(alloc: Global, written: &Result<Vec<u8>, Fault>) -> Result<Option<RunParts>, Fault>
    ensures parts { IfOk result (SplitsWritten written.now) }
    ensures memory { IfErr result (λ fault. fault ≡ OutOfMemory) }
{
    match written {
        Ok(octets) => run_parts(alloc, octets.as_slice()),
        Err(_unread) => Ok(None),
    }
}

/// The files of a run of an accounts file, and what was written of it.
fn read_unheaded<R: AllocGlobal + InputFiles>(
    rt: &R,
    read: ConfigFile,
    written: Result<Vec<u8>, Fault>,
) -> Result<RunFiles, Fault>
    ensures read { IfOk result (λ run. (run.config ≡ read.octets) × (run.names ≡ read.config.files) × AreNamed (R.finds rt.now) read.config.files run.named × (written ≡ Ok run.written) × (run.run ≡ None)) }
    ensures refused { IfErr result (λ fault. (fault ≡ OutOfMemory) ⊎ FailsNamedFiles (R.finds rt.now) read.config.files fault ⊎ (written ≡ Err fault)) }
{
    let ConfigFile { octets, config } = read;
    let opened = open_input(rt, config)?;
    let OpenInput {
        config,
        accounts,
        messages,
        tariff,
    } = opened;
    let named = read_opened(rt.alloc(), accounts, messages, tariff)?;
    let written = written?;
    Ok(RunFiles {
        config: octets,
        names: config.files,
        named,
        written,
        run: None,
        before: 0,
    })
}

/// The files of a run of a ledger, whose journal has these parts.
fn read_headed<R: AllocGlobal + InputFiles>(
    rt: &R,
    read: ConfigFile,
    parts: RunParts,
) -> Result<RunFiles, Fault>
    ensures read { IfOk result (IsHeadedBy (R.finds rt.now) read parts) }
    ensures refused { IfErr result (FailsMessages (R.finds rt.now) read.config.files) }
{
    let ConfigFile { octets, config } = read;
    let RunParts {
        run,
        accounts,
        journal,
        before,
    } = parts;
    let named = match files_with(rt, &config.files, accounts) {
        Ok(named) => named,
        Err(fault) => return Err(fault),
    };
    Ok(RunFiles {
        config: octets,
        names: config.files,
        named,
        written: journal,
        run: Some(run),
        before,
    })
}
