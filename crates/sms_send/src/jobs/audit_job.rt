//! The job of `audit`: a run, by its report, as a run of the model.

ghost use Rattle.std.specs.Prelude.{◌≡◌, ◌≢◌, IfErr, IfOk};
ghost use Rattle.sms_send.specs.Audited.{AuditsBy, FailsAudit, FailsAuditJob, PrintsRun};
ghost use Rattle.sms_send.specs.Faults.{output_failed};
ghost use Rattle.sms_send.specs.PlainFiles.{sees};

use crate::args::send_args::AuditArgs;
use crate::faults::context::JobContext;
use crate::faults::fault::Fault;
use crate::files::opened::InputFiles;
use crate::files::plain_files::PlainFiles;
use crate::files::run_files::{RunFiles, read_run};
use sms_journal::run_audit;
use std::alloc::Global;
use std::io::Write;

/// Prints the schedule of a run, by its report. The exit status is 0.
pub fn audit_job<R: AllocGlobal + InputFiles, W: Write>(
    rt: &R,
    context: &mut JobContext,
    order: AuditArgs,
    output: &mut W,
) -> Result<u8, Fault>
    ensures status { IfOk result (λ status. status ≡ 0) }
    ensures printed { IfOk result (λ status. AuditsBy (sees order.refs (R.finds rt.now)) order (W.contents output.old) (W.contents output.new)) }
    ensures refused { IfErr result (FailsAuditJob (sees order.refs (R.finds rt.now)) order (W.contents output.old) (W.contents output.new)) }
    ensures unwritten { IfErr result (λ fault. fault ≢ output_failed → output.new ≡ output.old) }
{
    let seen = PlainFiles {
        rt,
        refs: order.refs,
    };
    match read_run(&seen, context, order.config, order.report) {
        Ok(run) => audited(rt.alloc(), &run, output),
        Err(fault) => Err(fault),
    }
}

/// The same of files that were read.
fn audited<W: Write>(alloc: Global, run: &RunFiles, output: &mut W) -> Result<u8, Fault>
    ensures status { IfOk result (λ status. status ≡ 0) }
    ensures printed { IfOk result (λ status. PrintsRun run.now (W.contents output.old) (W.contents output.new)) }
    ensures refused { IfErr result (FailsAudit run.now (W.contents output.old) (W.contents output.new)) }
    ensures unwritten { IfErr result (λ fault. fault ≢ output_failed → output.new ≡ output.old) }
{
    let printed = run_audit(
        alloc,
        run.config.as_slice(),
        run.named.accounts.as_slice(),
        run.named.messages.as_slice(),
        run.named.tariff(),
        run.written.as_slice(),
        output,
    );
    match printed {
        Ok(()) => Ok(0),
        Err(fault) => Err(Fault::from(fault)),
    }
}
