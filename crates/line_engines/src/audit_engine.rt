//! How is an input of records audited?

ghost use Rattle.std.specs.Prelude.{◌≡◌, ◌+◌, [], List, length};
ghost use Rattle.line_reading.specs.Records.{AuditRecord};
ghost use Rattle.call_audit.specs.Represents.{RepresentsRecords};
ghost use Rattle.line_engines.specs.Audited.{RunsAudit};
ghost use Rattle.line_engines.specs.AuditedPrivate.{AuditsLine};

use crate::driver::{LineHandler, run_lines};
use crate::fault::RunFault;
use crate::run_end::RunEnd;
use call_audit::{AuditVerdict, Auditor, Cause};
use line_devices::{Input, Output, Sink, Source};
use reg_lines::print_line;
use spiffe_name::TrustDomain;
use std::alloc::{AllocError, Global};
use std::marker::Model;

/// Audits the records of the input, in order, and writes the verdict: yes if no line has a fault, and otherwise no for the first
/// one that has. The lines after that one aren't read from the input.
///
/// Returns whether the verdict is yes. The error is a failed device, or out of memory, which may happen at any line; the run then
/// ends without a verdict.
pub fn audit<S: Source, K: Sink>(
    alloc: Global,
    domain: TrustDomain,
    input: &mut Input<S>,
    output: &mut Output<K>,
) -> Result<RunEnd, RunFault>
    requires input { input.old.failures ≡ 0 }
    requires output { output.old.failures ≡ 0 }
    requires none_held { output.old.held ≡ [] }
    ensures { RunsAudit domain input.old input.new output.old output.new result }
{
    let mut run = AuditRun::new(alloc, domain)?;
    match run_lines(alloc, &mut run, input, output) {
        Ok(()) => Ok(run.outcome()),
        Err(fault) => Err(fault),
    }
}

/// Why an audit is over before the last line.
#[derive(Clone, Copy, Debug, PartialEq, Eq, Drop)]
enum Over {
    /// The line of this number has a fault, for this cause.
    Denied(u64, Cause),
    /// Memory ran out.
    NoMemory,
}

/// An auditor of lines, and why it accepts no more, if so.
#[derive(Drop)]
struct AuditRun {
    auditor: Auditor,
    over: Option<Over>,
}

impl Model for AuditRun {
    ghost use Rattle.line_engines.specs.AuditedPrivate.{AuditKept};

    ghost Value = { AuditKept };

    ghost view = { λ r. record { auditor = r.auditor; over = r.over } };
}

impl AuditRun {
    ghost use Rattle.std.specs.Prelude.{◌≡◌, ℕ, IfOk};
    ghost use Rattle.line_engines.specs.Audited.{Audited, audit_start, audit_verdict_in};
    ghost use Rattle.line_engines.specs.AuditedPrivate.{AuditRepresents, run_end_of};

    /// The state before the first line. The error is out of memory.
    fn new(alloc: Global, domain: TrustDomain) -> Result<AuditRun, AllocError>
        ensures represents { IfOk result (λ run. AuditRepresents run 0 audit_start) }
        ensures domain { IfOk result (λ run. run.auditor.book.domain ≡ domain) }
    {
        Ok(AuditRun {
            auditor: Auditor::new(alloc, domain)?,
            over: None,
        })
    }

    /// Returns the verdict after the lines so far. The error is that memory ran out for one of them.
    fn verdict(&self) -> Result<AuditVerdict, AllocError>
        ensures { (lines : ℕ) (now : Audited) → AuditRepresents self.now lines now → IfOk result (λ verdict. audit_verdict_in now ≡ Some verdict) }
    {
        match &self.over {
            None => Ok(AuditVerdict::Yes(self.auditor.count() as u64)),
            Some(Over::Denied(line, cause)) => Ok(AuditVerdict::No(*line, *cause)),
            Some(Over::NoMemory) => Err(AllocError),
        }
    }

    /// Returns the outcome, which decides the exit status.
    fn outcome(&self) -> RunEnd
        ensures { result ≡ run_end_of self.now.over }
    {
        match &self.over {
            Some(Over::Denied(_, _)) => RunEnd::Denied,
            Some(Over::NoMemory) | None => RunEnd::Done,
        }
    }
}

impl LineHandler for AuditRun {
    ghost use Rattle.std.specs.Prelude.{ℕ, List, ⊤};
    ghost use Rattle.line_engines.specs.Audited.{AnswersRecord, Audited, ClosesWithVerdict, is_audit_over};
    ghost use Rattle.line_engines.specs.AuditedPrivate.{AuditRepresents, an_audit};

    ghost State = { Audited };

    ghost Setting = { List ℕ };

    ghost setting = { λ r. r.auditor.book.domain };

    ghost represents = { AuditRepresents };

    ghost preserves = { λ _ _. ⊤ };

    ghost answers = { AnswersRecord };

    ghost ends = { is_audit_over };

    ghost closes = { λ _. ClosesWithVerdict };

    ghost may_lack_memory = { ⊤ };

    ghost some_answer = { an_audit };

    /// Audits the line, which gets no reply of its own.
    fn answer<K: Sink>(&mut self, _: Global, number: u64, line: &[u8], _: &mut Output<K>) -> bool {
        if self.over.is_some() {
            return false;
        }
        self.over = audit_line(&mut self.auditor, number, line);
        self.over.is_none()
    }

    /// Prints the verdict.
    fn close<K: Sink>(&mut self, _: Global, output: &mut Output<K>) -> Result<(), AllocError> {
        let verdict = self.verdict()?;
        print_line(&verdict, output);
        Ok(())
    }
}

/// Audits the line of this number, and returns why the audit is over, if it is.
fn audit_line(auditor: &mut Auditor, number: u64, line: &[u8]) -> Option<Over>
    ensures domain { auditor.new.book.domain ≡ auditor.old.book.domain }
    ensures line { (records : List AuditRecord) → RepresentsRecords auditor.old records → number ≡ length records + 1
        → AuditsLine auditor.old.book.domain records line.now auditor.new result }
{
    match auditor.audit(line) {
        Ok(None) => None,
        Ok(Some(cause)) => Some(Over::Denied(number, cause)),
        Err(AllocError) => Some(Over::NoMemory),
    }
}
