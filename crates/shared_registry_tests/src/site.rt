//! A registry of `ex.org`, on which threads run batches, and the letters between its seats.

ghost use Rattle.std.specs.Prelude.{◌≡◌};
ghost use Rattle.entry_book.specs.History.{first_books};

use crate::failed::Failed;
use crate::talks::THREADS;
use crate::telling::{outcome_text, seat_text};
use crate::turnstile::TURNS;
use entry_book::Batch;
use shared_registry::{
    Answer, ClosedRegistry, Gate, NewHistory, OpenGate, Outcome, Receipt, Registry, RegistryId,
    Seat, commits_law, conflicts_take_commits, one_list_of_receipts, one_list_with_receipt,
    overtaken_law, repeats_law,
};
use spiffe_name::TrustDomain;
use std::alloc::Global;
use std::collections::VecDeque;
use std::sync::{Mutex, Wait};
use std::thread;
use std::time::{Clock, Duration};
use test_batches::{batch, kind_at_place, reply_text};

/// What one seat sends to another: a receipt, and the place up to which it had then seen.
#[derive(Drop)]
struct Letter<J: RegistryId> {
    receipt: Receipt<J>,
    place: u64,
}

/// The letters for one seat.
type Mailbox<J> = Mutex<VecDeque<Letter<J>>>;

/// One mailbox for each thread.
fn mailboxes<J: RegistryId>(alloc: Global) -> Result<Vec<Mailbox<J>>, Failed> {
    let mut mailboxes = Vec::new(alloc);
    for _ in 0..THREADS {
        mailboxes.push(Mutex::new(VecDeque::new(alloc)))?;
    }
    Ok(mailboxes)
}

/// The number of tries of a batch, which may come before it, as in `tries 16; delete 1`; 1 by default.
fn tries_of(text: &str) -> Result<u32, Failed> {
    let Some(rest) = text.strip_prefix("tries ") else {
        return Ok(1);
    };
    let (tries, _) = rest.split_once("; ").unwrap_or((rest, ""));
    Ok(tries.parse::<u32>()?)
}

/// The text of the batch, after its tries.
pub fn without_tries(text: &str) -> &str {
    if !text.starts_with("tries ") {
        return text;
    }
    text.split_once("; ").unwrap_or((text, "")).1
}

/// The reply to a query, alternately with borrowed and with owned rows from call to call. It has no `Wait` handle.
fn query<J: RegistryId>(
    registry: &Registry<J>,
    alloc: Global,
    own_domain: &TrustDomain,
    seat: &mut Seat<J>,
    batch: Batch,
) -> Result<Answer, Failed>
    requires { own_domain.now ≡ J.domain }
{
    if batch.domain() != own_domain || !batch.is_query() || !seat.has_calls() {
        return Err(Failed("a batch isn't for a query"));
    }
    if !seat.calls().is_multiple_of(2) {
        return Ok(registry.query(seat, &batch)?);
    }
    seat.look()?;
    let borrowed = seat.answer(&batch)?;
    let reply = borrowed.to_owned(alloc);
    drop(borrowed);
    drop(batch);
    seat.see_found();
    Ok(reply?)
}

/// Commits a batch of changes, and returns the reply to a query on what the seat has then seen, without looking for news.
fn query_after<J: RegistryId, R: Wait>(
    rt: &R,
    registry: &Registry<J>,
    alloc: Global,
    own_domain: &TrustDomain,
    seat: &mut Seat<J>,
    changes: Batch,
    query: &Batch,
) -> Result<Answer, Failed>
    requires { own_domain.now ≡ J.domain }
{
    if changes.domain() != own_domain || changes.is_query() || !seat.has_calls() {
        return Err(Failed("a batch isn't to be handed in"));
    }
    if query.domain() != own_domain || !query.is_query() {
        return Err(Failed("a batch isn't for a query"));
    }
    commits_law();
    conflicts_take_commits();
    overtaken_law();
    repeats_law();
    match registry.submit(rt, seat, &OpenGate, changes, 1) {
        Outcome::Committed(_) => {
            let borrowed = seat.answer(query)?;
            let reply = borrowed.to_owned(alloc);
            drop(borrowed);
            Ok(reply?)
        }
        Outcome::NoMemory => Err(Failed("no memory")),
        _ => Err(Failed("a batch isn't committed")),
    }
}

/// Learns a receipt. It has no `Wait` handle, either.
fn learn<J: RegistryId>(seat: &mut Seat<J>, receipt: &Receipt<J>) {
    seat.learn(receipt);
}

/// What a seat that was informed of all commits sees at the end: the receipt of them, and the reply to a query.
#[derive(Drop)]
struct Last<J: RegistryId> {
    seat: Seat<J>,
    receipt: Receipt<J>,
    reply: String,
}

// the query at the end
const LAST_QUERY: &str = "show 1; show 2; show 3";

/// A closed registry shows what a seat saw at the end.
fn shows_last<J: RegistryId>(
    mut closed: ClosedRegistry<J>,
    alloc: Global,
    own_domain: &TrustDomain,
    last: Last<J>,
) -> Result<(), Failed>
    requires { own_domain.now ≡ J.domain }
{
    closed.shows(&last.seat);
    closed.shows_receipt(&last.receipt);
    let query = batch(alloc, LAST_QUERY)?;
    if query.domain() != own_domain || !query.is_query() {
        return Err(Failed("a batch isn't for a query"));
    }
    let borrowed = closed.answer(alloc, &query)?;
    let reply = borrowed.to_owned(alloc);
    drop(borrowed);
    let is_whole = last.receipt.place() == closed.place() && last.seat.place() == closed.place();
    if is_whole && reply_text(alloc, &reply?)? == last.reply {
        Ok(())
    } else {
        Err(Failed("a closed registry shows something else"))
    }
}

/// A registry, its trust domain, and the mailboxes of its seats, with what threads need to use it.
pub struct Site<'a, J: RegistryId, R: Wait + Clock> {
    pub rt: &'a R,
    pub alloc: Global,
    registry: Registry<J>,
    domain: TrustDomain,
    mailboxes: Vec<Mailbox<J>>,
    ghost own_domain: { domain ≡ J.domain },
}

impl<'a, J: RegistryId, R: Wait + Clock> Site<'a, J, R> {
    ghost use Rattle.std.specs.Prelude.{◌≡◌};

    /// A site with this history and trust domain, which is passed twice, and this number of seats, or all.
    pub fn open(
        rt: &'a R,
        alloc: Global,
        new_history: NewHistory,
        domain: TrustDomain,
        own_domain: TrustDomain,
        seats: Option<usize>,
    ) -> Result<Site<'a, J, R>, Failed>
        requires history { new_history.seen.book ≡ J.history }
        requires first { J.first ≡ first_books }
        requires domain { (domain ≡ J.domain) × (own_domain ≡ J.domain) }
    {
        let registry = match seats {
            None => Registry::<J>::new(alloc, new_history, domain)?,
            Some(seats) => Registry::<J>::with_seats(alloc, new_history, domain, seats.max(1))?,
        };
        match mailboxes(alloc) {
            Ok(mailboxes) => Ok(Site {
                rt,
                alloc,
                registry,
                domain: own_domain,
                mailboxes,
            }),
            Err(failed) => {
                registry.close(rt);
                Err(failed)
            }
        }
    }

    /// What one more seat sees at the end, if any is left.
    fn last(&self) -> Result<Option<Last<J>>, Failed> {
        let Ok(mut seat) = self.registry.seat(self.rt) else {
            return Ok(None);
        };
        let receipt = self.registry.receipt(self.rt, &seat);
        learn(&mut seat, &receipt);
        let reply = self.asks(&mut seat, batch(self.alloc, LAST_QUERY)?)?;
        Ok(Some(Last {
            seat,
            receipt,
            reply,
        }))
    }

    /// Closes the registry, which then shows what one more seat, if any is left, saw at the end.
    pub fn close(self) -> Result<(), Failed> {
        let last = self.last();
        let Site {
            rt,
            alloc,
            registry,
            domain,
            mailboxes: _,
        } = self;
        let closed = registry.close(rt);
        match last? {
            None => Ok(()),
            Some(last) => shows_last(closed, alloc, &domain, last),
        }
    }

    pub fn seat(&self) -> Result<Seat<J>, Failed> {
        Ok(self.registry.seat(self.rt)?)
    }

    /// The number of stored items.
    pub fn kept(&self) -> u64 {
        self.registry.kept(self.rt)
    }

    /// The last place, as a new seat is informed of it.
    pub fn place(&self) -> Result<u64, Failed> {
        let mut seat = self.seat()?;
        let receipt = self.registry.news(self.rt, &mut seat)?;
        one_list_of_receipts(&receipt, &receipt);
        Ok(seat.place())
    }

    /// The reply to a query, as text.
    fn asks(&self, seat: &mut Seat<J>, batch: Batch) -> Result<String, Failed> {
        let reply = query(&self.registry, self.alloc, &self.domain, seat, batch)?;
        Ok(reply_text(self.alloc, &reply)?)
    }

    /// The outcome of a batch of changes, as text.
    fn does<G: Gate>(
        &self,
        seat: &mut Seat<J>,
        gate: &G,
        batch: Batch,
        tries: u32,
    ) -> Result<String, Failed> {
        if batch.domain() != &self.domain || batch.is_query() || !seat.has_calls() || tries == 0 {
            return Err(Failed("a batch isn't to be handed in"));
        }
        let outcome = self.registry.submit(self.rt, seat, gate, batch, tries);
        outcome_text(self.alloc, &outcome)
    }

    /// The outcome of the batch of a text, with its tries.
    fn runs<G: Gate>(&self, seat: &mut Seat<J>, gate: &G, text: &str) -> Result<String, Failed> {
        let tries = tries_of(text)?;
        let batch = batch(self.alloc, without_tries(text))?;
        if batch.is_query() {
            return self.asks(seat, batch);
        }
        self.does(seat, gate, batch, tries)
    }

    /// The reply to a query, without looking for news, after committing the changes that follow it, as in
    /// `show 1 AFTER delete 2`.
    fn asks_after(&self, seat: &mut Seat<J>, text: &str) -> Result<String, Failed> {
        let (query, changes) = text.split_once(" AFTER ").unwrap_or((text, ""));
        let (query, changes) = (batch(self.alloc, query)?, batch(self.alloc, changes)?);
        let reply = query_after(
            self.rt,
            &self.registry,
            self.alloc,
            &self.domain,
            seat,
            changes,
            &query,
        )?;
        Ok(reply_text(self.alloc, &reply)?)
    }

    /// The outcome of the last of the given number of equal batches.
    fn runs_often(
        &self,
        seat: &mut Seat<J>,
        gate: &impl Gate,
        text: &str,
    ) -> Result<String, Failed> {
        let (times, text) = text.split_once(" ").unwrap_or((text, ""));
        for _ in 1..times.parse::<u64>()? {
            self.runs(seat, gate, text)?;
        }
        self.runs(seat, gate, text)
    }

    fn posts(&self, letter: Letter<J>, to: u64) -> Result<(), Failed> {
        let Some(mailbox) = self.mailboxes.get(to as usize) else {
            return Err(Failed("no such mailbox"));
        };
        mailbox.lock(self.rt).push_back(letter)?;
        Ok(())
    }

    /// Sends a receipt of all commits to a mailbox, and returns the place up to which the seat has then seen.
    fn sends(&self, seat: &mut Seat<J>, to: &str) -> Result<String, Failed> {
        let to = to.parse::<u64>()?;
        let receipt = self.registry.news(self.rt, seat)?;
        let place = seat.place();
        self.posts(Letter { receipt, place }, to)?;
        Ok(kind_at_place(self.alloc, "sent", place)?)
    }

    /// Waits for a letter.
    fn letter(&self, number: u64) -> Result<Letter<J>, Failed> {
        let Some(mailbox) = self.mailboxes.get(number as usize) else {
            return Err(Failed("no such mailbox"));
        };
        for _ in 0..TURNS {
            let letter = mailbox.lock(self.rt).pop_front();
            if let Some(letter) = letter {
                return Ok(letter);
            }
            thread::sleep(self.rt, Duration::from_millis(1));
        }
        Err(Failed("no letter came, as where there is no memory for a thread"))
    }

    /// Learns a letter's receipt, and returns its place.
    fn takes(&self, seat: &mut Seat<J>, number: u64) -> Result<String, Failed> {
        let letter = self.letter(number)?;
        let place = letter.place;
        one_list_with_receipt(seat, &letter.receipt);
        learn(seat, &letter.receipt);
        drop(letter);
        Ok(kind_at_place(self.alloc, "taken", place)?)
    }

    /// The answer to a seat, with the mailbox of a number, that runs a line. `SEND 2` sends a receipt to mailbox 2, `TAKE` waits
    /// for a letter and learns its receipt, `SEAT` describes the seat, `TIMES 3` runs the following batch that often, and
    /// `FOUND show 1 AFTER delete 2` commits the changes and queries without looking for news. Any other line runs a batch, whose
    /// changes pass the gate.
    pub fn answer<G: Gate>(
        &self,
        seat: &mut Seat<J>,
        gate: &G,
        number: u64,
        line: &str,
    ) -> Result<String, Failed> {
        let (word, rest) = line.split_once(" ").unwrap_or((line, ""));
        match word {
            "SEND" => self.sends(seat, rest),
            "TAKE" => self.takes(seat, number),
            "SEAT" => seat_text(self.alloc, seat),
            "TIMES" => self.runs_often(seat, gate, rest),
            "FOUND" => self.asks_after(seat, rest),
            _ => self.runs(seat, gate, line),
        }
    }
}
