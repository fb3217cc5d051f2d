//! How is an input of request lines answered through a seat of a shared registry?

ghost use Rattle.std.specs.Prelude.{◌≡◌, ◌+◌, ◌<◌, ◌^◌, [], List, MatchBool, true, false, ℕ};
ghost use Rattle.entry_book.specs.Batches.{is_query};
ghost use Rattle.reg_lines.specs.Refusals.{no_memory_json, refusal_json};
ghost use Rattle.line_devices.specs.Stream.{Puts};
ghost use Rattle.line_engines.specs.Answers.{as_line};
ghost use Rattle.shared_registry.specs.Seated.{MaySeeFound, Seated};
ghost use Rattle.reg_programs.specs.Alone.{SessionsAloneArePlain};
ghost use Rattle.reg_programs.specs.Sessions.{AnswersCall, Grew, RunsSession, Session, SessionsGrow, no_answer_json, submit_json};
ghost use Rattle.reg_programs.specs.SessionsPrivate.{HasText, IsPrinted, IsToAnswer, TakesRequestLine, found_json};

use commit_head::laws::journals;
use entry_book::laws::histories;
use entry_book::{Batch, CallAnswer};
use line_devices::{Input, Output, Sink, Source};
use line_engines::{LineHandler, RunFault, run_lines};
use line_reading::{Ids, LineRefusal, Request, read_request};
use reg_lines::{AnsweredCall, BorrowedCallReply, SeatRefusal, SeatRefused, print_line};
use shared_registry::{NoAnswer, OpenGate, Outcome, Registry, RegistryId, Seat};
use spiffe_name::{Failure, TrustDomain};
use std::alloc::{AllocError, Global};
use std::marker::Model;
use std::sync::Wait;

/// Answers each line of the input through the seat, in order, and returns the seat. Creates without an id get the ids, in order.
///
/// The replies are out before each read that may wait, and at the end. What the seat has seen has only grown, even if a device
/// failed. The function waits for the input and for the registry's lock, and isn't guaranteed to return.
pub fn session<J: RegistryId, R: Wait, S: Source, K: Sink>(
    rt: &R,
    alloc: Global,
    registry: &Registry<J>,
    domain: &TrustDomain,
    seat: Seat<J>,
    ids: Ids,
    input: &mut Input<S>,
    output: &mut Output<K>,
) -> (Seat<J>, Result<(), RunFault>)
    requires domain { domain.now ≡ J.domain }
    requires input { input.old.failures ≡ 0 }
    requires output { output.old.failures ≡ 0 }
    requires none_held { output.old.held ≡ [] }
    ensures runs { RunsSession J.first J.domain seat ids input.old input.new output.old output.new result.0 result.1 }
    ensures grew { Grew J.first J.domain seat result.0 }
{
    let mut run = SessionRun {
        rt,
        registry,
        domain,
        seat,
        ids,
    };
    let ran = run_lines(alloc, &mut run, input, output);
    (run.into_seat(), ran)
}

/// A seat that answers lines, and the ids that it gives.
#[derive(Drop)]
struct SessionRun<'a, J: RegistryId, R: Wait> {
    rt: &'a R,
    registry: &'a Registry<J>,
    domain: &'a TrustDomain,
    seat: Seat<J>,
    ids: Ids,
}

impl<'a, J: RegistryId, R: Wait> Model for SessionRun<'a, J, R> {
    ghost use Rattle.std.specs.Prelude.{◌≡◌};
    ghost use Rattle.reg_programs.specs.SessionsPrivate.{SessionKept};

    ghost Value = { SessionKept };

    ghost view = { λ r. record { seat = r.seat; ids = r.ids } };

    ghost invariant = { λ r. r.domain.now ≡ J.domain };
}

impl<'a, J: RegistryId, R: Wait> SessionRun<'a, J, R> {
    ghost use Rattle.std.specs.Prelude.{◌≡◌};

    /// Returns the seat.
    fn into_seat(self) -> Seat<J>
        ensures { result ≡ self.entry.seat }
    {
        self.seat
    }
}

impl<'a, J: RegistryId, R: Wait> LineHandler for SessionRun<'a, J, R> {
    ghost use Rattle.std.specs.Prelude.{◌≡◌, ⊤, [], false};
    ghost use Rattle.reg_programs.specs.Sessions.{AnswersRequest, Grew, Session};
    ghost use Rattle.reg_programs.specs.SessionsPrivate.{SessionRepresents, a_request_answer};

    ghost State = { Session };

    ghost Setting = { ⊤ };

    ghost setting = { λ _. tt };

    ghost represents = { SessionRepresents };

    ghost preserves = { λ start r. Grew J.first J.domain start.seat r.seat };

    ghost answers = { λ _. AnswersRequest J.first J.domain };

    ghost ends = { λ _. false };

    ghost closes = { λ _ _ end. end ≡ [] };

    ghost may_lack_memory = { ⊥ };

    ghost some_answer = { λ _. a_request_answer J.first J.domain };

    fn answer<K: Sink>(
        &mut self,
        alloc: Global,
        number: u64,
        line: &[u8],
        output: &mut Output<K>,
    ) -> bool {
        let taken = take(
            self.rt,
            alloc,
            self.registry,
            self.domain,
            &mut self.seat,
            &mut self.ids,
            number,
            line,
        );
        print_taken(&mut self.seat, &taken, output);
        true
    }

    /// Puts no text after the last reply.
    fn close<K: Sink>(&mut self, _: Global, _: &mut Output<K>) -> Result<(), AllocError> {
        Ok(())
    }
}

/// The result of taking a line.
#[derive(Drop)]
pub(crate) enum Taken {
    /// The call of this number has this answer.
    Answered(u64, CallAnswer),
    /// The line of this number has this query, which the seat is to answer; it has already looked at the published state.
    Query(u64, Batch),
    /// The seat has no answer.
    NotAnswered(SeatRefused),
    /// The line isn't a request, or an allocation failed.
    NotRead(LineRefusal),
}

/// Prints the seat's reply to a query, with borrowed rows. Returns false and prints nothing if memory runs out.
fn print_found<J: RegistryId, K: Sink>(
    seat: &Seat<J>,
    batch: &Batch,
    output: &mut Output<K>,
) -> bool
    requires found { MaySeeFound J.first J.domain seat.now }
    requires query { is_query batch.now.ops ≡ true }
    requires domain { batch.now.domain ≡ J.domain }
    ensures { MatchBool result (Puts output.old output.new (as_line (found_json J.first seat.now batch.now))) (output.new ≡ output.old) }
{
    match seat.answer(batch) {
        Ok(reply) => {
            let call = seat.calls();
            print_line(&BorrowedCallReply { call, reply }, output);
            true
        }
        Err(AllocError) => false,
    }
}

/// Prints the reply to a line that was taken. Afterwards the seat has seen the journal that its reply was computed from.
fn print_taken<J: RegistryId, K: Sink>(seat: &mut Seat<J>, taken: &Taken, output: &mut Output<K>)
    requires { IsToAnswer J.first J.domain seat.old taken.now }
    ensures { (text : List ℕ) × IsPrinted J.first seat.old taken.now seat.new text × Puts output.old output.new (as_line text) }
{
    match taken {
        Taken::Answered(call, answer) => {
            let call = *call;
            print_line(&AnsweredCall { call, answer }, output);
        }
        Taken::NotAnswered(refused) => print_line(refused, output),
        Taken::NotRead(refusal) => print_line(refusal, output),
        Taken::Query(line, batch) => {
            if print_found(seat, batch, output) {
                seat.see_found();
            } else {
                print_line(&no_memory(*line), output);
            }
        }
    }
}

/// Takes the line of this number, and returns the result.
fn take<J: RegistryId, R: Wait>(
    rt: &R,
    alloc: Global,
    registry: &Registry<J>,
    domain: &TrustDomain,
    seat: &mut Seat<J>,
    ids: &mut Ids,
    number: u64,
    line: &[u8],
) -> Taken
    requires domain { domain.now ≡ J.domain }
    ensures asked { IsToAnswer J.first J.domain seat.new result }
    ensures grew { (printed : Seated) (text : List ℕ) → IsPrinted J.first seat.new result printed text → Grew J.first J.domain seat.old printed }
    ensures line { (lines : ℕ) (printed : Seated) (text : List ℕ) → number ≡ lines + 1 → IsPrinted J.first seat.new result printed text
        → TakesRequestLine J.first J.domain (record { seat = seat.old; ids = ids.old; lines = lines }) line.now text printed ids.new }
{
    match read_request(alloc, domain, ids, line, number) {
        Err(refusal) => Taken::NotRead(refusal),
        Ok(request) => {
            if seat.has_calls() {
                call(rt, registry, seat, request, number)
            } else {
                Taken::NotAnswered(SeatRefused {
                    line: number,
                    refusal: SeatRefusal::Spent,
                })
            }
        }
    }
}

/// Makes a call of the seat, for the request of the line of this number, and returns the result.
fn call<J: RegistryId, R: Wait>(
    rt: &R,
    registry: &Registry<J>,
    seat: &mut Seat<J>,
    request: Request,
    line: u64,
) -> Taken
    requires domain { request.batch.domain ≡ J.domain }
    requires calls { seat.old.calls < 2 ^ 48 }
    ensures asked { IsToAnswer J.first J.domain seat.new result }
    ensures answers { (printed : Seated) (text : List ℕ) → IsPrinted J.first seat.new result printed text
        → AnswersCall J.first J.domain seat.old request line printed text }
{
    let Request { batch, tries } = request;
    if batch.is_query() {
        match seat.look() {
            Ok(()) => Taken::Query(line, batch),
            Err(why) => {
                drop(batch);
                not_answered(line, why)
            }
        }
    } else {
        let outcome = registry.submit(rt, seat, &OpenGate, batch, tries.count() as u32);
        outcome_of(seat.calls(), line, outcome)
    }
}

/// The refusal of the line of this number because memory ran out.
fn no_memory(line: u64) -> LineRefusal
    ensures { refusal_json result ≡ no_memory_json line }
{
    LineRefusal {
        line,
        failure: Failure::NoMemory,
    }
}

/// Returns why the line of this number has no answer.
fn not_answered(line: u64, why: NoAnswer) -> Taken
    ensures { HasText result (no_answer_json line why) }
{
    match why {
        NoAnswer::NoMemory => Taken::NotRead(no_memory(line)),
        NoAnswer::NoEntry => Taken::NotAnswered(SeatRefused {
            line,
            refusal: SeatRefusal::NoEntry,
        }),
    }
}

/// Returns the outcome of the changes that the call of this number submitted, for the line of this number.
fn outcome_of(call: u64, line: u64, outcome: Outcome) -> Taken
    ensures { HasText result (submit_json call line outcome) }
{
    match outcome.answer() {
        Ok(answer) => Taken::Answered(call, answer),
        Err(why) => not_answered(line, why),
    }
}

/// What the seat of a session has seen only grows, for any lines and answers. The body is empty: a proof calls the function to
/// cite its contract.
pub fn sessions_law()
    ensures { SessionsGrow }
{}

/// A session through a new seat writes what `plain` writes with the same seed, if the history begins with the empty book and all
/// commits that the seat has seen are its own: then no commit of others decided an answer. For other first books, it writes what
/// `plain` would write if it started on these. A line that is answered L8 ends this, since `plain` has no such answer. This
/// function does nothing at run time: its contract is the theorem.
pub fn session_alone_law()
    ensures { SessionsAloneArePlain }
{
    histories();
    journals();
}
