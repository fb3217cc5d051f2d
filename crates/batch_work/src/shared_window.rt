//! Which versions are published, and what does the next window share with the one before it?

ghost use Rattle.std.specs.Prelude.{◌≡◌, ◌≤◌, ◌<◌, ◌+◌, ◌++◌, ◌∷◌, [], IfOk, OnOk, Some, length, map};
ghost use Rattle.std.specs.Option.{option_copied};
ghost use Rattle.batch_work.specs.SharedWindows.{last_of_both};
ghost use Rattle.batch_work.specs.WindowSlots.{held};
ghost use Rattle.batch_work.specs.Windows.{back_from, ending};

use crate::versioned::Versioned;
use crate::window::version_in;
use arrayvec::ArrayVec;
use entry_book::Shared;
use std::alloc::{AllocError, Global};
use std::marker::Model;
use version_book::Version;

/// How many older versions a window retains.
const MOST_OLDER: usize = 63;

/// The slots that several windows share.
type SharedSlots = Shared<ArrayVec<Option<Version>, 63>>;

/// The slots of one window alone.
type OwnSlots = ArrayVec<Option<Version>, 10>;

/// Appends clones of these slots, for which there is room. The error is out of memory.
fn push_clones(
    all: &mut ArrayVec<Option<Version>, 63>,
    more: &[Option<Version>],
) -> Result<(), AllocError>
    requires room { length all.old.items + length more.now ≤ 63 }
    ensures { OnOk result (all.new.items ≡ all.old.items ++ more.now) }
{
    for slot in more {
        all.push(slot.clone()?);
    }
    Ok(())
}

/// Returns clones of the last 63 of these slots, or of all of them if there are fewer: the shared ones, then a window's own, then
/// one with the newest version. The error is out of memory.
fn last_clones(
    shared: &[Option<Version>],
    recent: &[Option<Version>],
    newest: &Version,
) -> Result<ArrayVec<Option<Version>, 63>, AllocError>
    requires few { (length shared.now ≤ 63) × (length recent.now ≤ 10) }
    ensures { IfOk result (λ all. all.items ≡ ending 63 (shared.now ++ (recent.now ++ Some newest.now ∷ []))) }
{
    let more = recent.len() + 1;
    let skipped = (shared.len() + more).saturating_sub(MOST_OLDER);
    let mut all = ArrayVec::new();
    push_clones(&mut all, &shared[skipped..])?;
    push_clones(&mut all, recent)?;
    all.push(Some(newest.clone()?));
    Ok(all)
}

/// Returns the slots of the next window, in which the newest version of this one is the last of the older ones. It is put behind
/// the own slots, and the shared ones remain shared. If the own slots are full, the last 63 of all are new shared ones instead.
/// The error is out of memory.
fn next_slots(
    alloc: Global,
    shared: &SharedSlots,
    recent: &OwnSlots,
    newest: &Version,
) -> Result<(SharedSlots, OwnSlots), AllocError>
    ensures room { IfOk result (λ slots. length recent.now.items < 10
        → (slots.0.items ≡ shared.now.items) × (slots.1.items ≡ recent.now.items ++ Some newest.now ∷ [])) }
    ensures full { IfOk result (λ slots. 10 ≤ length recent.now.items
        → (slots.0.items ≡ ending 63 (shared.now.items ++ (recent.now.items ++ Some newest.now ∷ []))) × (slots.1.items ≡ [])) }
{
    if recent.is_full() {
        let all = last_clones(shared.get().as_slice(), recent.as_slice(), newest)?;
        return Ok((Shared::of(alloc, all)?, ArrayVec::new()));
    }
    let mut more = recent.clone()?;
    more.push(Some(newest.clone()?));
    Ok((shared.clone()?, more))
}

/// Returns the version this many steps before the end of the last 63 of two lists of slots, if there is one.
fn version_back<'a>(
    shared: &'a [Option<Version>],
    recent: &'a [Option<Version>],
    steps: u64,
) -> Option<&'a Version>
    requires few { (length shared.now ≤ 63) × (length recent.now ≤ 10) }
    requires held { (shared.now ≡ map Some (held shared.now)) × (recent.now ≡ map Some (held recent.now)) }
    requires steps { 0 < steps }
    ensures { option_copied result ≡ back_from steps (last_of_both (held shared.now) (held recent.now)) }
{
    if steps > MOST_OLDER as u64 {
        return None;
    }
    let (steps, own) = (steps as usize, recent.len());
    if steps <= own {
        return version_in(recent, own - steps);
    }
    let count = shared.len() + own;
    if steps > count {
        return None;
    }
    version_in(shared, count - steps)
}

/// The last versions of one history, as a [`Window`](crate::Window) has them, in a value that never changes. The model in
/// contracts is the same record.
///
/// Windows that follow each other share most of their older versions. These are the last 63 of two lists in slots: one that
/// several windows share, and up to ten of this window's own. Moving a window moves the ten slots and no shared one.
///
/// A reader finds a version in either list without a search, and allocates no memory. A writer calls
/// [`next`](SharedWindow::next), which clones the second list, five versions on average, and increments one reference count for
/// the first one. That allocates no memory either. At each eleventh call the second list is full: then the call clones the last
/// 63 versions into a new list of 63 slots, and allocates the memory in which they are shared.
#[derive(Drop)]
pub struct SharedWindow {
    // no slot in use is empty, as in a `Window`
    shared: SharedSlots,
    recent: OwnSlots,
    newest: Version,
}

impl Model for SharedWindow {
    ghost use Rattle.batch_work.specs.SharedWindows.{IsShared, last_of_both};
    ghost use Rattle.batch_work.specs.WindowSlots.{held};
    ghost use Rattle.batch_work.specs.Windows.{Window};

    ghost Value = { Window };

    ghost view = { λ window. record {
      older = last_of_both (held window.shared.items) (held window.recent.items);
      newest = window.newest;
    } };

    ghost invariant = { λ window. IsShared window.shared.items window.recent.items window.newest };
}

impl SharedWindow {
    ghost use Rattle.std.specs.Prelude.{◌≡◌, IfOk, []};
    ghost use Rattle.batch_work.specs.Windows.{IsNextVersion, pushed};

    /// Makes the window with this version alone. The error is out of memory.
    pub fn of(alloc: Global, version: Version) -> Result<SharedWindow, AllocError>
        ensures { IfOk result (λ window. window ≡ record { older = []; newest = version }) }
    {
        Ok(SharedWindow {
            shared: Shared::of(alloc, ArrayVec::new())?,
            recent: ArrayVec::new(),
            newest: version,
        })
    }

    /// Returns the window after the next version: that of the same trust domain with the next number. It is without the oldest
    /// version if this window has 64, and this window doesn't change. The error is out of memory.
    pub fn next(&self, alloc: Global, version: Version) -> Result<SharedWindow, AllocError>
        requires next { IsNextVersion self.now.newest version }
        ensures { IfOk result (λ window. window ≡ pushed version self.now) }
    {
        let (shared, recent) = next_slots(alloc, &self.shared, &self.recent, &self.newest)?;
        Ok(SharedWindow {
            shared,
            recent,
            newest: version,
        })
    }
}

impl Versioned for SharedWindow {
    ghost window = { λ window. window };

    fn newest(&self) -> &Version {
        &self.newest
    }

    fn back(&self, steps: u64) -> Option<&Version> {
        version_back(self.shared.get().as_slice(), self.recent.as_slice(), steps)
    }
}
