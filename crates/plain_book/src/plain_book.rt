//! What does a plain book store between batches, and what does it reply?

ghost use Rattle.std.specs.Prelude.{◌≡◌};

use crate::book::Book;
use crate::older::{among_kept, push_older};
use crate::verdict::{Verdict, verdict_on};
use entry_book::{Batch, OpRefusal, Refusal, Reply, ReplyOutcome};
use spiffe_name::TrustDomain;
use std::alloc::{AllocError, Global};
use std::marker::Model;
use std::mem::replace;

/// A registration book for one thread. It represents the list of all its books so far, the first one empty. A committed
/// batch appends the next one, and every other batch leaves the list unchanged. It stores the last book, whose number is
/// the place, and up to 63 before it.
#[derive(Drop)]
pub struct PlainBook {
    alloc: Global,
    domain: TrustDomain,
    older: Vec<Book>,
    newest: Book,
    place: u64,
}

impl Model for PlainBook {
    ghost use Rattle.entry_book.specs.History.{PlainState};
    ghost use Rattle.plain_book.specs.Keeps.{IsSound};

    ghost Value = { PlainState };

    ghost view = { λ book. record {
      domain = book.domain;
      older = book.older.items;
      newest = book.newest;
      place = book.place;
    } };

    ghost invariant = { λ book. IsSound (record {
      domain = book.domain;
      older = book.older.items;
      newest = book.newest;
      place = book.place;
    }) };
}

impl PlainBook {
    ghost use Rattle.std.specs.Prelude.{◌≡◌, ◌≤◌, ◌*◌, ◌^◌, IfOk, OnErr, OnOk, List, length};
    ghost use Rattle.entry_book.specs.Book.{Book as BookRows};
    ghost use Rattle.entry_book.specs.History.{RepresentsBooks, RepresentsFrom, books_after, first_books, reply_on, reply_to, state_after};
    ghost use Rattle.entry_book.specs.Lawful.{Lawful};

    /// Returns an empty book of a trust domain's server, at place 0. The error is out of memory.
    pub fn new(alloc: Global, domain: TrustDomain) -> Result<PlainBook, AllocError>
        ensures domain { IfOk result (λ book. book.domain ≡ domain) }
        ensures represents { IfOk result (λ book. RepresentsBooks book first_books) }
    {
        Ok(PlainBook {
            alloc,
            domain,
            older: Vec::new(alloc),
            newest: Book::empty(alloc)?,
            place: 0,
        })
    }

    /// Runs a batch that was made for this book's trust domain. The reply and the new state are functions of the batch and the
    /// state. They agree with every list of books that the state represents, whatever books it begins with. The error is out of
    /// memory; it leaves the book unchanged.
    pub fn run(&mut self, batch: &Batch) -> Result<Reply, AllocError>
        requires made_for { batch.now.domain ≡ self.old.domain }
        ensures answered { IfOk result (λ reply. reply ≡ reply_on batch.now self.old) }
        ensures kept { OnOk result (self.new ≡ state_after batch.now self.old) }
        ensures reply { (first books : List BookRows) → RepresentsFrom first self.old books
            → IfOk result (λ reply. reply ≡ reply_to batch.now books) }
        ensures books { (first books : List BookRows) → RepresentsFrom first self.old books
            → OnOk result (RepresentsFrom first self.new (books_after batch.now books)) }
        ensures domain { self.new.domain ≡ self.old.domain }
        ensures err { OnErr result (self.new ≡ self.old) }
    {
        match self.verdict(batch)? {
            Verdict::Refuses(refusal) => Ok(Reply {
                place: self.place,
                outcome: ReplyOutcome::Refused(refusal),
            }),
            Verdict::Answers(replies) => Ok(Reply {
                place: self.place,
                outcome: ReplyOutcome::Answered(replies),
            }),
            Verdict::Adds(replies, book) => {
                self.add(book)?;
                Ok(Reply {
                    place: self.place,
                    outcome: ReplyOutcome::Committed(replies),
                })
            }
            Verdict::Repeats(place, replies) => Ok(Reply {
                place,
                outcome: ReplyOutcome::Repeated(replies),
            }),
        }
    }

    /// Returns the number of the last book, which is the number of committed batches.
    pub fn place(&self) -> u64
        ensures place { result ≡ self.now.place }
        ensures most { self.now.place ≤ 2 ^ 48 }
        ensures lawful { Lawful self.now.domain (64 * self.now.place) self.now.newest }
        ensures few { length self.now.older ≤ 63 }
    {
        let PlainBook { place, .. } = self;
        *place
    }

    /// Returns the trust domain of the book's server.
    pub fn domain(&self) -> &TrustDomain
        ensures { result.now ≡ self.now.domain }
    {
        &self.domain
    }
}

impl PlainBook {
    ghost use Rattle.std.specs.Prelude.{◌≡◌, ◌+◌, ◌*◌, ◌^◌, ◌<◌, IfOk, OnErr, OnOk};
    ghost use Rattle.std.specs.Option.{option_copied};
    ghost use Rattle.entry_book.specs.Batches.{IsMadeFor};
    ghost use Rattle.entry_book.specs.History.{kept_books, kept_for, last_of, verdict_of};
    ghost use Rattle.entry_book.specs.Lawful.{Lawful};
    ghost use Rattle.plain_book.specs.Performed.{verdict_model};

    /// Returns the outcome of a batch. The error is out of memory.
    fn verdict(&self, batch: &Batch) -> Result<Verdict, AllocError>
        requires made_for { batch.now.domain ≡ self.now.domain }
        ensures verdict_is { IfOk result (λ verdict. verdict_model verdict ≡ verdict_of batch.now self.now) }
        ensures made { IsMadeFor batch.now.domain batch.now }
    {
        let asked = batch.past_place();
        if self.place < batch.after() {
            return Ok(Verdict::Refuses(Refusal::NotYet));
        }
        match self.kept_for(asked) {
            Some(book) => verdict_on(self.alloc, batch, self.place, book),
            None => Ok(Verdict::Refuses(Refusal::OfOp(0, OpRefusal::VersionGone))),
        }
    }

    /// Returns the book that a batch reads: the last one, or the one whose number it gives, if that one is stored.
    fn kept_for(&self, asked: Option<u64>) -> Option<&Book>
        ensures { option_copied result ≡ kept_for asked self.now }
    {
        match asked {
            Some(number) => among_kept(number, self.older.as_slice(), &self.newest, self.place),
            None => Some(&self.newest),
        }
    }

    /// Appends a book, and drops all but the last 63 before it. The error is out of memory; it leaves the book unchanged.
    fn add(&mut self, book: Book) -> Result<(), AllocError>
        requires lawful { Lawful self.old.domain (64 * (self.old.place + 1)) book }
        requires room { self.old.place < 2 ^ 48 }
        ensures ok { OnOk result (self.new ≡ record self.old {
          older = last_of 63 (kept_books self.old);
          newest = book;
          place = self.old.place + 1;
        }) }
        ensures err { OnErr result (self.new ≡ self.old) }
    {
        let found = self.newest.clone()?;
        push_older(&mut self.older, found)?;
        drop(replace(&mut self.newest, book));
        self.place += 1;
        Ok(())
    }
}
