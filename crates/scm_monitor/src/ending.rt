//! How the program ends after a script that was run whole.
ghost use Rattle.std.specs.Prelude.{◌≡◌, IfOk, IsTrue, false};
ghost use Rattle.scm_monitor.specs.Program.{status_at_end};
ghost use Rattle.scm_sessions.specs.inner.JournalText.{AreNamed};
ghost use Rattle.scm_sessions.specs.Script.{has_failed};

use crate::settings::Options;
use scm_sessions::{Ended, Findings, Port, RunFault, write_journal};
use std::io::Write;

/// The exit status where the audit of a run says that the journal isn't what the sessions were answered.
pub const AUDIT_STATUS: u8 = 7;

/// The exit status after a run whose audit agreed or didn't: that it didn't is told also where no check is asked for.
pub fn end_status(agreed: bool, check: bool, findings: &Findings) -> u8
    ensures { result ≡ status_at_end agreed check findings.now }
{
    if !agreed {
        AUDIT_STATUS
    } else if check {
        findings.status()
    } else {
        0
    }
}

/// Writes the journal where it is asked for and the audit agreed, and gives the exit status.
pub fn end_run<W: Write>(
    writer: &mut Port<W>,
    ended: Ended,
    options: Options,
    findings: &Findings,
) -> Result<u8, RunFault>
    requires writes { has_failed writer.old ≡ false }
    requires named { IsTrue ended.audit.agreed → AreNamed ended.names.items ended.audit.book.journal }
    ensures { IfOk result (λ status. status ≡ status_at_end ended.audit.agreed options.check findings.now) }
{
    let Ended { audit, names } = ended;
    if options.journal && audit.agreed {
        write_journal(writer, &audit.book, names.as_slice())?;
    }
    Ok(end_status(audit.agreed, options.check, findings))
}
