//! The files of a run without the column `ref` of its messages.

ghost use Rattle.std.specs.Prelude.{IfErr, IfOk};
ghost use Rattle.sms_send.specs.Refs.{FailsRefs, IsWithoutRefs};

use crate::faults::fault::Fault;
use crate::files::named_files::NamedFiles;
use crate::files::run_files::RunFiles;
use sms_files::refs::{TakenRefs, take_refs};
use std::alloc::Global;

/// A run whose messages had a column `ref`.
#[derive(Drop)]
pub struct PlainRun {
    /// Its files, with the messages without that column.
    pub files: RunFiles,
    /// What stood in it: the reference of each message, by its index.
    pub refs: Vec<String>,
}

/// Takes the column `ref` off the messages of a run.
pub fn without_refs(alloc: Global, run: RunFiles) -> Result<PlainRun, Fault>
    ensures taken { IfOk result (λ plain. IsWithoutRefs run plain.files plain.refs.items) }
    ensures refused { IfErr result (FailsRefs run) }
{
    let TakenRefs { plain, refs } = match take_refs(alloc, run.named.messages.as_slice()) {
        Ok(taken) => taken,
        Err(fault) => {
            drop(run);
            return Err(Fault::from(fault));
        }
    };
    let RunFiles {
        config,
        names,
        named,
        written,
        run,
        before,
    } = run;
    let NamedFiles {
        accounts,
        messages,
        tariff,
    } = named;
    drop(messages);
    let named = NamedFiles {
        accounts,
        messages: plain,
        tariff,
    };
    let files = RunFiles {
        config,
        names,
        named,
        written,
        run,
        before,
    };
    Ok(PlainRun { files, refs })
}
