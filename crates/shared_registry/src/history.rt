//! Which history do all threads share, who may append to it, and which prefix of it has been seen?

ghost use Rattle.std.specs.Prelude.{◌≡◌, ◌+◌, ◌<◌, ◌^◌, ◌++◌, ◌∷◌, ◌⊎◌, [], length, IfSome, IsTrue};
ghost use mathlib.Core.List.{IsPrefix};
ghost use Rattle.entry_book.specs.History.{IsFirst};
ghost use Rattle.commit_head.specs.Journals.{IsLawfulJournal};
ghost use Rattle.logbook.specs.Pages.{may_write};
ghost use Rattle.shared_registry.specs.OneList.{AreOneList};
ghost use Rattle.shared_registry.specs.Rules.{items_of, word_of};

use crate::entry::HistoryEntry;
use commit_head::Item;
use logbook::{Gain, Offer, Pen, Plain, Play, Rule, Seen, Start, Word};
use std::marker::{Brand, Model, PhantomData};

/// The invariant of the history's words: the first one is its length, and each right to append that was used is used up.
pub struct HistoryRule;

impl Rule<HistoryEntry, u64> for HistoryRule {
    ghost use Rattle.std.specs.Prelude.{[]};
    ghost use base.Fml.{ftrue};
    ghost use Rattle.shared_registry.specs.RulesPrivate.{IsKept};

    ghost holds = { λ cells log. IsKept cells log };

    ghost first = { [] };

    ghost hinted = { λ n log. Unit {0} };

    ghost shows = { λ log. [] };

    ghost keeps = { λ names log. ftrue };

    ghost moves = { λ ask before after answer. Unit {0} };
}

/// What a caller gains by a step: nothing.
pub struct NoGain;

impl Gain<HistoryEntry, u64> for NoGain {
    ghost use base.Fml.{ftrue};

    ghost after = { λ names about answer. ftrue };
}

/// A step that makes a pen.
pub struct MakePen;

impl Play<HistoryEntry, u64> for MakePen {
    ghost use Rattle.shared_registry.specs.RulesPrivate.{MakesPen};

    ghost then = { MakesPen };
}

/// A step that appends an entry, with the right to do so.
pub struct AppendEntry;

impl Play<HistoryEntry, u64> for AppendEntry {
    ghost use Rattle.shared_registry.specs.RulesPrivate.{Appends};

    ghost then = { Appends };
}

/// A step that looks at the whole history, with the right to append to it.
pub struct LookAtAll;

impl Play<HistoryEntry, u64> for LookAtAll {
    ghost use Rattle.shared_registry.specs.RulesPrivate.{Looks};

    ghost then = { Looks };
}

/// What is appended: the item, and the pen that is the right to append the next entry.
#[derive(Drop)]
pub struct NextEntry<'a> {
    item: &'a Item,
    next: &'a Pen,
}

impl<'a> Plain<NextEntry<'a>, HistoryEntry, u64> for AppendEntry {
    ghost use Rattle.std.specs.Prelude.{None};

    ghost ask = { λ entry. record { item = entry.item.now; next = entry.next.now.nib.key } };

    ghost state = { λ entry. None };
}

/// The request of a step that appends nothing.
#[derive(Drop)]
pub struct NoRequest;

impl Plain<NoRequest, HistoryEntry, u64> for NoRequest {
    ghost use Rattle.std.specs.Prelude.{None};
    ghost use Rattle.shared_registry.specs.RulesPrivate.{no_entry};

    ghost ask = { λ entry. no_entry };

    ghost state = { λ entry. None };
}

/// A word of the history.
type HistoryWord = Word<HistoryEntry, u64, HistoryRule>;

/// A token for entries of the history that were seen.
pub(crate) type SeenEntries = Seen<HistoryEntry, u64, HistoryRule>;

/// A request to a word of the history.
type HistoryOffer = Offer<HistoryEntry, u64, HistoryRule, NoGain>;

/// Identifies a registry in the proofs, by its history, the books with which that begins, and the trust domain of its books. A
/// program picks these when it makes a registry. Seats, receipts and registries of one registry belong together.
pub trait RegistryId {
    ghost use Rattle.std.specs.Prelude.{List};
    ghost use Rattle.logbook.specs.Pages.{Book};
    ghost use Rattle.entry_book.specs.Book.{Book as BookRows};
    ghost use Rattle.entry_book.specs.Rows.{Bytes};

    ghost history: { Book };

    ghost first: { List BookRows };

    ghost domain: { Bytes };
}

/// The proof of a caller chooses the members for its own registry (`ghosts-..` in the `Invariants.antt` of the caller), and uses
/// none of those that are given here. With these there is no registry: no history begins with the empty list (`IsFirst`).
impl RegistryId for Brand {
    ghost use Rattle.std.specs.Prelude.{[]};

    ghost history = { record { number = 0; log_name = 0; cells_name = 0 } };

    ghost first = { [] };

    ghost domain = { [] };
}

/// Makes a pen. If the word was 0, it is the right to append the first entry.
fn make_pen(pens: &HistoryWord, seen: &SeenEntries) -> (u64, Pen)
    requires { pens.now ≡ word_of 1 seen.now.book }
    ensures book { result.1.book ≡ seen.now.book }
    ensures right { result.1.nib.right ≡ may_write }
    ensures first { result.0 ≡ 0 → result.1.nib.key ≡ 2 }
{
    let mut seen = seen.again();
    let mut pen = seen.no_pen();
    let mut offer: HistoryOffer = seen.plain::<NoGain, NoRequest, NoRequest>(&NoRequest);
    let found = pens.compare_exchange::<MakePen, NoGain>(0, 1, &mut seen, &mut offer, &mut pen);
    let _word: HistoryWord = Word::tracked(0, &mut pen);
    (found, pen)
}

/// An empty history that belongs to no registry yet.
pub struct NewHistory {
    count: HistoryWord,
    pens: HistoryWord,
    found: u64,
    seen: SeenEntries,
    pen: Pen,
    pub ghost empty: { seen.log ≡ [] },
    pub ghost words_are: { (count ≡ word_of 0 seen.book) × (pens ≡ word_of 1 seen.book) },
    pub ghost pen_is: { (pen.book ≡ seen.book) × (pen.nib.right ≡ may_write) × (found ≡ 0 → pen.nib.key ≡ 2) },
}

impl NewHistory {
    /// Makes a new history. Takes no memory.
    pub fn new() -> NewHistory {
        let (seen, mut first, mut second) = Seen::open(Start::alone(), 0, 0);
        let count = Word::tracked(0, &mut first);
        let pens = Word::tracked(0, &mut second);
        let (found, pen) = make_pen(&pens, &seen);
        NewHistory {
            count,
            pens,
            found,
            seen,
            pen,
        }
    }

    /// Returns the history as that of the registry `J`, with the right to append to it. It is `None` if that right was taken
    /// before. At run time nobody can have taken it, but the contracts of `logbook` don't exclude it.
    pub(crate) fn into_history<J: RegistryId>(self) -> Option<History<J>>
        requires history { self.seen.book ≡ J.history }
        requires first { IsFirst J.domain J.first }
        ensures { IfSome result (λ h. h ≡ []) }
    {
        let NewHistory {
            count,
            pens,
            found,
            seen,
            pen,
        } = self;
        if found != 0 {
            return None;
        }
        Some(History {
            count,
            pens,
            items: 0,
            seen,
            pen,
            of: PhantomData,
        })
    }
}

/// The history, with the right to append to it, which exists once. The model in contracts is the list of all its items. At
/// run time it has two words: the number of its items, and whether the right was taken.
#[derive(Drop)]
pub struct History<J: RegistryId> {
    count: HistoryWord,
    pens: HistoryWord,
    items: u64,
    seen: SeenEntries,
    pen: Pen,
    of: PhantomData<J>,
}

impl<J: RegistryId> Model for History<J> {
    ghost use Rattle.std.specs.Prelude.{◌≡◌, List, length};
    ghost use Rattle.logbook.specs.Pages.{may_write};
    ghost use Rattle.commit_head.specs.declared.item.Item.{Item};
    ghost use Rattle.commit_head.specs.Journals.{IsLawfulJournal};
    ghost use Rattle.shared_registry.specs.Rules.{items_of, word_of};
    ghost use Rattle.shared_registry.specs.RulesPrivate.{right_after};

    ghost Value = { List Item };

    ghost view = { λ h. items_of h.seen.log };

    ghost invariant = { λ h. (h.count ≡ word_of 0 J.history) × (h.pens ≡ word_of 1 J.history) × (h.seen.book ≡ J.history) × (h.pen.book ≡ J.history) × (h.pen.nib.right ≡ may_write) × (h.pen.nib.key ≡ right_after 2 h.seen.log) × (h.items ≡ length (items_of h.seen.log)) × IsLawfulJournal J.first J.domain (items_of h.seen.log) };
}

/// Says of which registry a history is. It has no bytes.
#[derive(Drop)]
pub(crate) struct HistoryName<J: RegistryId> {
    seen: SeenEntries,
    of: PhantomData<J>,
    ghost is_of_it: { seen.book ≡ J.history },
}

impl<J: RegistryId> History<J> {
    /// Returns its name.
    pub(crate) fn name(&self) -> HistoryName<J> {
        HistoryName {
            seen: self.seen.again(),
            of: PhantomData,
        }
    }

    /// Returns all its items, as a prefix.
    pub(crate) fn prefix(&self) -> HistoryPrefix<J>
        ensures { result ≡ self.now }
    {
        HistoryPrefix {
            items: self.items,
            seen: self.seen.again(),
            of: PhantomData,
        }
    }

    /// Appends an item. It never fails.
    pub(crate) fn append(&mut self, item: &Item)
        requires room { length self.old < 2 ^ 62 }
        requires lawful { IsLawfulJournal J.first J.domain (self.old ++ item.now ∷ []) }
        ensures { self.new ≡ self.old ++ item.now ∷ [] }
    {
        let (_found, next) = make_pen(&self.pens, &self.seen);
        let mut offer: HistoryOffer = self
            .seen
            .plain::<NoGain, NextEntry<'_>, AppendEntry>(&NextEntry { item, next: &next });
        let items = self.items;
        self.count.compare_exchange::<AppendEntry, NoGain>(
            items,
            items + 1,
            &mut self.seen,
            &mut offer,
            &mut self.pen,
        );
        self.pen = next;
        self.items = items + 1;
    }

    /// Whatever prefix anyone has seen, it is a prefix of all the items that this history has: nobody else can have appended
    /// one. It changes nothing.
    pub(crate) fn has_all(&mut self, prefix: &HistoryPrefix<J>)
        ensures same { self.new ≡ self.old }
        ensures all { IsPrefix prefix.now self.old }
    {
        let mut both = self.seen.again();
        both.learn(&prefix.seen);
        let mut offer: HistoryOffer = both.plain::<NoGain, NoRequest, NoRequest>(&NoRequest);
        let items = self.items;
        self.count
            .compare_exchange::<LookAtAll, NoGain>(
                items,
                items,
                &mut both,
                &mut offer,
                &mut self.pen,
            );
    }
}

/// A prefix of the history that was seen: a lawful journal. The model in contracts is the list of its items. At run time it
/// has only its length, and no copy of an item.
#[derive(Drop)]
pub struct HistoryPrefix<J: RegistryId> {
    items: u64,
    seen: SeenEntries,
    of: PhantomData<J>,
}

impl<J: RegistryId> Model for HistoryPrefix<J> {
    ghost use Rattle.std.specs.Prelude.{◌≡◌, List, length};
    ghost use Rattle.commit_head.specs.declared.item.Item.{Item};
    ghost use Rattle.commit_head.specs.Journals.{IsLawfulJournal};
    ghost use Rattle.shared_registry.specs.Rules.{items_of};

    ghost Value = { List Item };

    ghost view = { λ f. items_of f.seen.log };

    ghost invariant = { λ f. (f.items ≡ length (items_of f.seen.log)) × (f.seen.book ≡ J.history) × IsLawfulJournal J.first J.domain (items_of f.seen.log) };
}

impl<J: RegistryId> HistoryPrefix<J> {
    /// Returns the number of its items.
    pub(crate) fn len(&self) -> u64
        ensures length { result ≡ length self.now }
        ensures lawful { IsLawfulJournal J.first J.domain self.now }
    {
        self.items
    }

    /// Returns a copy.
    pub(crate) fn again(&self) -> HistoryPrefix<J>
        ensures { result ≡ self.now }
    {
        HistoryPrefix {
            items: self.items,
            seen: self.seen.again(),
            of: PhantomData,
        }
    }

    /// Returns the longer of two prefixes. The other one is a prefix of it.
    pub(crate) fn longer(&self, other: &HistoryPrefix<J>) -> HistoryPrefix<J>
        ensures one { (result ≡ self.now) ⊎ (result ≡ other.now) }
        ensures this { IsPrefix self.now result }
        ensures that { IsPrefix other.now result }
    {
        let mut both = self.seen.again();
        both.learn(&other.seen);
        if self.items < other.items {
            other.again()
        } else {
            self.again()
        }
    }

    /// Does nothing at run time. Its contract: the two are prefixes of one list.
    pub(crate) fn agree(&self, other: &HistoryPrefix<J>)
        ensures { AreOneList self.now other.now }
    {
        let _longer = self.longer(other);
    }

    /// Returns the token of what was seen.
    pub(crate) fn token(&self) -> SeenEntries
        ensures { (result.book ≡ J.history) × (items_of result.log ≡ self.now) }
    {
        self.seen.again()
    }

    /// Makes the prefix of a token with this number of items.
    pub(crate) fn of(items: u64, seen: SeenEntries) -> HistoryPrefix<J>
        requires { (seen.book ≡ J.history) × (items ≡ length (items_of seen.log)) × IsLawfulJournal J.first J.domain (items_of seen.log) }
        ensures { result ≡ items_of seen.log }
    {
        HistoryPrefix {
            items,
            seen,
            of: PhantomData,
        }
    }

    /// Returns true only if it is a prefix of the other one: it is no longer, and both are prefixes of one history.
    pub(crate) fn begins(&self, other: &HistoryPrefix<J>) -> bool
        ensures { IsTrue result → IsPrefix self.now other.now }
    {
        let mut both = self.seen.again();
        both.learn(&other.seen);
        self.items <= other.items
    }
}
