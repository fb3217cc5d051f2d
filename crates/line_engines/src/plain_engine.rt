//! How is an input of request lines answered on a plain book?

ghost use Rattle.std.specs.Prelude.{◌≡◌, ◌+◌, ◌≤◌, [], List, ℕ};
ghost use Rattle.entry_book.specs.Book.{Book};
ghost use Rattle.entry_book.specs.History.{RepresentsFrom};
ghost use Rattle.line_engines.specs.Answers.{RunsPlain};
ghost use Rattle.line_engines.specs.AnswersPrivate.{AnswersBatch, AnswersLine};

use crate::driver::{LineHandler, run_lines};
use crate::fault::RunFault;
use entry_book::Batch;
use line_devices::{Input, Output, Sink, Source};
use line_reading::{Ids, LineRefusal, read_request};
use plain_book::PlainBook;
use reg_lines::{CallReply, print_line};
use spiffe_name::{Failure, TrustDomain};
use std::alloc::{AllocError, Global};
use std::marker::Model;

/// Answers each line of the input on a plain book of the trust domain, in order. Creates without an id get the ids of the
/// seed, in order.
///
/// The replies are out before each read that may wait, and at the end. The error is a failed device, or out of memory before the
/// first line. If memory runs out later, the reply to the line says so.
pub fn plain<S: Source, K: Sink>(
    alloc: Global,
    domain: TrustDomain,
    seed: [u8; 32],
    input: &mut Input<S>,
    output: &mut Output<K>,
) -> Result<(), RunFault>
    requires input { input.old.failures ≡ 0 }
    requires output { output.old.failures ≡ 0 }
    requires none_held { output.old.held ≡ [] }
    ensures { RunsPlain domain seed input.old input.new output.old output.new result }
{
    let mut run = PlainRun::new(alloc, domain, seed)?;
    run_lines(alloc, &mut run, input, output)
}

/// A plain book that answers lines, the ids that it gives, and the number of calls that were run.
#[derive(Drop)]
struct PlainRun {
    book: PlainBook,
    ids: Ids,
    calls: u64,
}

impl Model for PlainRun {
    ghost use Rattle.line_engines.specs.AnswersPrivate.{PlainKept};

    ghost Value = { PlainKept };

    ghost view = { λ r. record { book = r.book; ids = r.ids; calls = r.calls } };
}

impl PlainRun {
    ghost use Rattle.std.specs.Prelude.{◌≡◌, IfOk};
    ghost use Rattle.line_engines.specs.Answers.{plain_start};
    ghost use Rattle.line_engines.specs.AnswersPrivate.{PlainRepresents};

    /// The state before the first line. The error is out of memory.
    fn new(alloc: Global, domain: TrustDomain, seed: [u8; 32]) -> Result<PlainRun, AllocError>
        ensures represents { IfOk result (λ run. PlainRepresents run 0 (plain_start seed)) }
        ensures domain { IfOk result (λ run. run.book.domain ≡ domain) }
    {
        Ok(PlainRun {
            book: PlainBook::new(alloc, domain)?,
            ids: Ids::of_seed(seed),
            calls: 0,
        })
    }
}

impl LineHandler for PlainRun {
    ghost use Rattle.std.specs.Prelude.{ℕ, List, false, ⊤, ◌+◌, refl};
    ghost use Rattle.line_engines.specs.Answers.{Answers, ClosesWithNothing, Running};
    ghost use Rattle.line_engines.specs.AnswersPrivate.{PlainKept, PlainRepresents, an_answer};

    ghost State = { Running };

    ghost Setting = { List ℕ };

    ghost setting = { λ r. r.book.domain };

    ghost represents = { PlainRepresents };

    ghost preserves = { λ _ _. ⊤ };

    ghost answers = { Answers };

    ghost ends = { λ _. false };

    ghost closes = { λ _. ClosesWithNothing };

    ghost may_lack_memory = { ⊥ };

    ghost some_answer = { an_answer };

    fn answer<K: Sink>(
        &mut self,
        alloc: Global,
        number: u64,
        line: &[u8],
        output: &mut Output<K>,
    ) -> bool {
        self.calls = answer(
            alloc,
            &mut self.book,
            &mut self.ids,
            self.calls,
            number,
            line,
            output,
        );
        true
    }

    /// Puts no text after the last reply.
    fn close<K: Sink>(&mut self, _: Global, _: &mut Output<K>) -> Result<(), AllocError> {
        Ok(())
    }
}

/// Answers the line of this number, after `calls` calls. Returns the number of calls after it.
fn answer<K: Sink>(
    alloc: Global,
    book: &mut PlainBook,
    ids: &mut Ids,
    calls: u64,
    number: u64,
    line: &[u8],
    output: &mut Output<K>,
) -> u64
    ensures domain { book.new.domain ≡ book.old.domain }
    ensures calls { result ≤ calls + 1 }
    ensures line { (first books : List Book) (lines : ℕ) → RepresentsFrom first book.old books → number ≡ lines + 1 → calls ≤ lines
        → AnswersLine first book.old.domain (record { books = books; ids = ids.old; calls = calls; lines = lines }) line.now output.old output.new book.new ids.new result }
{
    match read_request(alloc, book.domain(), ids, line, number) {
        Err(refusal) => {
            print_line(&refusal, output);
            calls
        }
        Ok(request) => {
            // this never saturates: there are at most as many calls as lines, and each line has a number
            let calls = calls.saturating_add(1);
            call(book, &request.batch, calls, number, output);
            calls
        }
    }
}

/// Runs the batch of the line of this number on the book, as the call of this number, and prints the reply.
fn call<K: Sink>(book: &mut PlainBook, batch: &Batch, call: u64, line: u64, output: &mut Output<K>)
    requires made_for { batch.now.domain ≡ book.old.domain }
    ensures domain { book.new.domain ≡ book.old.domain }
    ensures answered { (first books : List Book) → RepresentsFrom first book.old books
        → AnswersBatch first books batch.now call line output.old output.new book.new }
{
    match book.run(batch) {
        Ok(reply) => print_line(
            &CallReply {
                call,
                reply: &reply,
            },
            output,
        ),
        Err(_) => print_line(
            &LineRefusal {
                line,
                failure: Failure::NoMemory,
            },
            output,
        ),
    }
}
