//! How is a ready work committed under the lock?

ghost use Rattle.std.specs.Prelude.{◌≡◌, ◌⊎◌, ◌<◌, ◌≤◌, ◌+◌, ◌++◌, ◌∷◌, [], drop, length, vec_capacity, IfErr, IfOk};
ghost use mathlib.Core.List.{IsPrefix};
ghost use Rattle.batch_work.specs.Windows.{pushed};
ghost use Rattle.batch_work.specs.Working.{status_of};
ghost use Rattle.commit_head.specs.Heads.{IsPreparedFor as IsNextOf, IsJournal, last_items};
ghost use Rattle.shared_registry.specs.WriterStates.{IsPublished, IsTied};
ghost use Rattle.shared_registry.specs.OutcomesPrivate.{HandsOut, IsCommitOutcome, IsMisnumbered};
ghost use Rattle.shared_registry.specs.Seated.{DuringCall};
ghost use Rattle.shared_registry.specs.SeatCalls.{AllBelow};
ghost use Rattle.shared_registry.specs.ShownPrivate.{IsCounted, IsOf, ShowsJournal};
ghost use Rattle.shared_registry.specs.Works.{IsRead};

use crate::history::{History, HistoryPrefix, RegistryId};
use crate::published::{PublishedState, PublishedValue};
use crate::rule::Sees;
use crate::seat::{NoEntry, Seat};
use crate::writer_state::PublishedWriter;
use batch_work::{Status, Work};
use commit_head::{Commit, Head, Item, Prepared};
use entry_book::Shared;
use std::alloc::{AllocError, Global};
use std::sync::Wait;

// The maximum number of stored items: with this number, a commit makes a checkpoint first.
const MOST_KEPT: u64 = 4096;

/// Makes a checkpoint if 4,096 items are stored, so that there is room for one more. The items that it removes are moved to
/// `older`, to be dropped without the lock. If that isn't empty yet, they are dropped.
pub(crate) fn checkpoint_if_full(head: &mut Head, older: &mut Vec<Item>)
    requires room { 64 ≤ vec_capacity older.old }
    ensures window { head.new.window ≡ head.old.window }
    ensures kept { (head.new ≡ head.old) ⊎ (head.new.kept ≡ last_items head.old.kept) }
    ensures few { length head.new.kept < 4096 }
    ensures room { 64 ≤ vec_capacity older.new }
{
    if head.kept() < MOST_KEPT {
        return;
    }
    if older.is_empty() {
        head.checkpoint_into(older);
    } else {
        head.checkpoint();
    }
}

/// Appends the value to the writer's log of values to publish. Retries until there is memory, and holds the lock meanwhile.
fn append<J: RegistryId, R: Wait>(
    rt: &R,
    mut writer: PublishedWriter<J>,
    mut next: PublishedValue,
) -> PublishedWriter<J>
    ensures shown { result.desk.shown.value ≡ writer.desk.shown.value }
    ensures pending { drop result.behind result.log.items ≡ drop writer.behind writer.log.items ++ next ∷ [] }
{
    for _ in rt.forever() {
        match writer.append(next) {
            Ok(()) => return writer,
            Err(back) => next = back,
        }
    }
    unreachable!()
}

/// Publishes the value that was appended. Retries until there is memory, and holds the lock meanwhile.
fn publish<J: RegistryId, R: Wait>(
    rt: &R,
    writer: PublishedWriter<J>,
    next: PublishedValue,
) -> PublishedWriter<J>
    requires clear { drop writer.behind writer.log.items ≡ [] }
    requires of_it { IsOf J.history J.first J.domain next }
    requires more { IsPrefix writer.desk.shown.value.journal next.journal }
    ensures shown { result.desk.shown.value ≡ next }
    ensures clear { drop result.behind result.log.items ≡ [] }
{
    let mut writer = append(rt, writer, next);
    for _ in rt.forever() {
        let (next, done) = writer.publish_as::<Sees<J>, R>(rt);
        writer = next;
        if done.is_ok() {
            return writer;
        }
    }
    unreachable!()
}

/// Returns the published state after a prepared commit: its version is in the window, and its seat has one more call. There are
/// two references to it, one for the readers and one for the seat. The only error is a failed allocation.
fn published_states_with(
    alloc: Global,
    published: &PublishedValue,
    prepared: &Prepared,
    seat: usize,
) -> Result<(Shared<PublishedState>, Shared<PublishedState>), AllocError>
    requires seat { (seat < 32) × (prepared.now.item.seat ≡ seat) }
    requires fits { IsNextOf published.now.window.newest prepared.now }
    ensures window { IfOk result (λ published_states. published_states.0.window ≡ pushed prepared.now.version published.now.window) }
    ensures counts { IfOk result (λ published_states. IsCounted published_states.0.counts (published.now.journal ++ prepared.now.item ∷ [])) }
    ensures same { IfOk result (λ published_states. published_states.1 ≡ published_states.0) }
{
    let version = prepared.version().clone()?;
    let window = published.window().next(alloc, version)?;
    let counts = published.counts_with(seat, prepared.item());
    let published_state = Shared::of(alloc, PublishedState { window, counts })?;
    let same = published_state.clone()?;
    Ok((published_state, same))
}

/// Returns the published values after a commit, one for the readers and one for the seat.
fn snapshots<J: RegistryId>(
    prefix: &HistoryPrefix<J>,
    published_states: (Shared<PublishedState>, Shared<PublishedState>),
) -> (PublishedValue, PublishedValue)
    requires shows { ShowsJournal J.first J.domain prefix.now published_states.0.window }
    requires counted { IsCounted published_states.0.counts prefix.now }
    requires same { published_states.1 ≡ published_states.0 }
    ensures of_it { IsOf J.history J.first J.domain result.0 }
    ensures journal { result.0.journal ≡ prefix.now }
    ensures same { result.1 ≡ result.0 }
{
    let (published_state, same) = published_states;
    (
        PublishedValue::of(prefix, published_state),
        PublishedValue::of(prefix, same),
    )
}

/// Lets the seat see all items so far, and commits the work as the seat's call, or returns why not. The commit takes effect
/// when its item is appended to the history; after that nothing is refused. After a commit the seat has the snapshot that was
/// published for it. The snapshot that it had before is returned, to be dropped without the lock.
pub(crate) fn decide<J: RegistryId, R: Wait>(
    rt: &R,
    alloc: Global,
    history: &mut History<J>,
    head: &mut Head,
    writer: PublishedWriter<J>,
    seat: &mut Seat<J>,
    work: &Work,
) -> (
    PublishedWriter<J>,
    Result<Commit, NoEntry>,
    Option<PublishedValue>,
)
    requires tied { IsTied J.first J.domain history.old head.old }
    requires few { length head.old.kept < 4096 }
    requires published { IsPublished J.history J.first J.domain history.old writer.desk.shown.value }
    requires clear { drop writer.behind writer.log.items ≡ [] }
    requires call { AllBelow seat.old.calls seat.old.own }
    requires ready { status_of work.now ≡ Status.Ready }
    requires read { IsRead J.first J.domain seat.old.seen work.now.batch work.now }
    ensures tied { IsTied J.first J.domain history.new head.new }
    ensures published { IsPublished J.history J.first J.domain history.new result.0.desk.shown.value }
    ensures clear { drop result.0.behind result.0.log.items ≡ [] }
    ensures during_call { DuringCall seat.old seat.new }
    ensures decided { IsCommitOutcome J.first history.old history.new seat.old seat.new work.now result.1 }
    ensures handed_out { HandsOut result.1 result.2 }
    ensures no_entry { IfErr result.1 (λ _. IsMisnumbered history.old seat.old) }
{
    let published = writer.published();
    let _window = published.window();
    let before_it = history.prefix();
    let _place = before_it.len();
    history.has_all(seat.prefix());
    history.has_all(seat.learnt());
    if !seat.has_own(published) {
        return (writer, Err(NoEntry), None);
    }
    let prepared = match head.prepare(seat.number(), seat.calls(), work) {
        Ok(prepared) => prepared,
        Err(refusal) => {
            seat.see(before_it);
            return (writer, Ok(refusal), None);
        }
    };
    let Ok(published_states) = published_states_with(
        alloc,
        published,
        &prepared,
        seat.number() as usize,
    ) else {
        seat.see(before_it);
        return (writer, Ok(Commit::NoMemory), None);
    };
    history.append(prepared.item());
    let prefix = history.prefix();
    let (snapshot, own) = snapshots(&prefix, published_states);
    let writer = publish(rt, writer, snapshot);
    seat.see(before_it);
    seat.see_own(prefix, prepared.item());
    let before = seat.replace_snapshot(own);
    let place = head.finish(prepared);
    (writer, Ok(Commit::Committed(place)), Some(before))
}
