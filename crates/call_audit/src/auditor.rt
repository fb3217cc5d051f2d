//! What does an auditor store about the records so far?

ghost use Rattle.std.specs.Prelude.{◌≡◌};

use crate::cause::Cause;
use crate::reply::is_reply;
use indexmap::IndexSet;
use line_reading::{Fault, Record, read_record};
use plain_book::PlainBook;
use serde_json::Value;
use spiffe_name::{Failure, TrustDomain};
use std::alloc::{AllocError, Global};
use std::marker::Model;

/// Checks the records of a run, line after line, and runs their batches on a plain book. It stores no record. The model in
/// contracts is the book's state, the numbers of the calls, and the largest number of an invoke.
#[derive(Drop)]
pub struct Auditor {
    alloc: Global,
    book: PlainBook,
    calls: IndexSet<u64>,
    latest: u64,
}

impl Model for Auditor {
    ghost use Rattle.call_audit.specs.Represents.{AuditState};

    ghost Value = { AuditState };

    ghost view = { λ auditor. record {
      book = auditor.book;
      calls = auditor.calls.keys;
      latest = auditor.latest;
    } };
}

impl Auditor {
    ghost use Rattle.std.specs.Prelude.{◌≡◌, ◌<◌, ◌^◌, IfOk, List, [], length};
    ghost use Rattle.line_reading.specs.Records.{AuditRecord};
    ghost use Rattle.call_audit.specs.Audits.{Judges};
    ghost use Rattle.call_audit.specs.Represents.{RepresentsRecords};

    /// Makes the auditor of a trust domain's records, before the first one. The error is out of memory.
    pub fn new(alloc: Global, domain: TrustDomain) -> Result<Auditor, AllocError>
        ensures domain { IfOk result (λ auditor. auditor.book.domain ≡ domain) }
        ensures keeps { IfOk result (λ auditor. RepresentsRecords auditor []) }
    {
        Ok(Auditor {
            alloc,
            book: PlainBook::new(alloc, domain)?,
            calls: IndexSet::new(alloc),
            latest: 0,
        })
    }

    /// Checks the next line, given with its LF if it has one. Returns `None` if it is a valid record after those before it, and
    /// otherwise the first cause that applies. The error is out of memory. After a cause or an error the audit is over: nothing
    /// is guaranteed about further lines.
    pub fn audit(&mut self, line: &[u8]) -> Result<Option<Cause>, AllocError>
        ensures domain { self.new.book.domain ≡ self.old.book.domain }
        ensures judged { (records : List AuditRecord) → RepresentsRecords self.old records
            → IfOk result (Judges self.old.book.domain records line.now (RepresentsRecords self.new)) }
    {
        // the line's number, here always 1, is only part of a refusal, and isn't used
        match read_record(self.alloc, self.book.domain(), line, 1) {
            Ok(claimed) => self.audit_record(&claimed),
            Err(refusal) => Ok(Some(spelling_cause(&refusal.failure)?)),
        }
    }

    /// Returns the number of records that were accepted, none of them with a fault.
    pub fn count(&self) -> usize
        ensures count { (records : List AuditRecord) → RepresentsRecords self.now records → result ≡ length records }
        ensures small { result < 2 ^ 63 }
    {
        self.calls.len()
    }
}

impl Auditor {
    ghost use Rattle.std.specs.Prelude.{◌≡◌, IfOk, List};
    ghost use Rattle.serde_json.specs.View.{view};
    ghost use Rattle.line_reading.specs.Records.{AuditRecord};
    ghost use Rattle.line_reading.specs.RecordViews.{recorded};
    ghost use Rattle.call_audit.specs.Audits.{is_past};
    ghost use Rattle.call_audit.specs.AuditsPrivate.{JudgesRecord};
    ghost use Rattle.call_audit.specs.Represents.{RepresentsRecords};

    /// Checks the next record, as `audit` checks its line.
    fn audit_record(&mut self, claimed: &Record) -> Result<Option<Cause>, AllocError>
        requires domain { claimed.now.batch.domain ≡ self.old.book.domain }
        ensures domain { self.new.book.domain ≡ self.old.book.domain }
        ensures judged { (records : List AuditRecord) → RepresentsRecords self.old records
            → IfOk result (JudgesRecord records (recorded claimed.now) (RepresentsRecords self.new)) }
    {
        if self.calls.contains(&claimed.call) {
            return Ok(Some(Cause::Call));
        }
        if !is_stamped(claimed) {
            return Ok(Some(Cause::Stamps));
        }
        if self.is_late(claimed.replied) {
            return Ok(Some(Cause::Order));
        }
        let reply = self.book.run(&claimed.batch)?;
        if !is_reply(self.alloc, &claimed.reply, claimed.call, &reply)? {
            return Ok(Some(Cause::Reply));
        }
        self.calls.insert(claimed.call)?;
        self.latest = self.latest.max(claimed.invoked);
        Ok(None)
    }

    /// Returns true if the call of an earlier record was invoked after this reply.
    fn is_late(&self, replied: Option<u64>) -> bool
        ensures { result ≡ is_past replied self.now.latest }
    {
        match replied {
            Some(number) => number < self.latest,
            None => false,
        }
    }
}

ghost use Rattle.std.specs.Prelude.{IfOk};
ghost use Rattle.line_reading.specs.RecordViews.{recorded};
ghost use Rattle.serde_json.specs.View.{view};
ghost use Rattle.call_audit.specs.Audits.{is_commit, is_stamped};
ghost use Rattle.call_audit.specs.AuditsPrivate.{IsSpellingCause};

/// Returns the cause of a line that isn't a record. The error is out of memory.
fn spelling_cause(failure: &Failure<Fault>) -> Result<Cause, AllocError>
    ensures { IfOk result (IsSpellingCause failure.now) }
{
    match failure {
        Failure::NoMemory => Err(AllocError),
        Failure::Refused(fault) => Ok(Cause::Spelling(fault.code)),
    }
}

/// Returns true if the call replied after it was invoked, or hasn't replied and is committed.
fn is_stamped(claimed: &Record) -> bool
    ensures { result ≡ is_stamped (recorded claimed.now) }
{
    match claimed.replied {
        Some(number) => claimed.invoked < number,
        None => is_commit(&claimed.reply),
    }
}

/// Returns true if the reply is that of a committed batch.
fn is_commit(reply: &Value) -> bool
    ensures { result ≡ is_commit (view reply.now) }
{
    match reply.get("result") {
        Some(word) => word.as_str() == Some("committed"),
        None => false,
    }
}
