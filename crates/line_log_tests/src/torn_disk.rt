//! A disk in memory of which a crash keeps a random part of what was written since the last sync.

ghost use Rattle.std.specs.Prelude.{◌≡◌, length, true, false, refl, is_ok, IfOk, IsTrue, OnOk};
ghost use Rattle.sqlite_disk.specs.Disk.{CountsFault, Cut, Holds, Mixed, Torn};
ghost use Rattle.sqlite_disk.specs.Refusal.{finds_no_room};

use crate::random::Random;
use sqlite_disk::{Disk, Tally, digest_of};
use std::alloc::{AllocError, Global};
use std::io;

/// How many bytes of a file a crash may mix. Those behind them are fillers.
const MIXED: usize = 600;

/// What a torn write may leave besides old and new bytes.
const OTHERS: [u8; 4] = [b'{', b'\n', b'x', 0];

/// A file in memory, and what it had at the last sync. A torn write leaves each byte old or new.
#[derive(Drop)]
pub struct TornDisk {
    bytes: Vec<u8>,
    synced: Vec<u8>,
    mixes: bool,
    is_usable: bool,
    faults: u64,
    caught: u64,
}

impl TornDisk {
    /// Returns a disk whose file has these bytes.
    pub fn new(alloc: Global, bytes: &[u8], mixes: bool) -> Result<TornDisk, AllocError>
        ensures { IfOk result (λ disk. IsTrue disk.is_usable) }
    {
        Ok(TornDisk {
            bytes: copy_of(alloc, bytes)?,
            synced: copy_of(alloc, bytes)?,
            mixes,
            is_usable: true,
            faults: 0,
            caught: 0,
        })
    }

    /// Returns the bytes of the file.
    pub fn bytes(&self) -> &[u8] {
        &self.bytes
    }

    /// Returns what a crash may leave: any length between that at the last sync and that of now, and of the first bytes each as it
    /// was at the last sync or as it is now. Bytes past the old end, and those of a torn write on a disk that does not mix, may be any.
    pub fn after_crash(&self, alloc: Global, random: &mut Random) -> Result<Vec<u8>, AllocError> {
        let longest = self.bytes.len().max(self.synced.len());
        let shortest = self.bytes.len().min(self.synced.len());
        let len = shortest + random.below(longest - shortest + 1);
        let mut left = copy_of(alloc, &self.bytes)?;
        if left.len() < len {
            left.extend_from_slice(&self.synced[self.bytes.len()..len])?;
        }
        left.truncate(len);
        let rate = random.below(5);
        for i in 0..len.min(MIXED) {
            if random.below(4) >= rate {
                continue;
            }
            let now = left[i];
            left[i] = match self.synced.get(i) {
                Some(old) if self.mixes || *old == now => *old,
                Some(old) if random.below(2) == 0 => *old,
                _ => OTHERS[random.below(OTHERS.len())],
            };
        }
        Ok(left)
    }
}

fn copy_of(alloc: Global, bytes: &[u8]) -> Result<Vec<u8>, AllocError>
    ensures { IfOk result (λ copy. copy.items ≡ bytes.now) }
{
    let mut copy = Vec::new(alloc);
    copy.extend_from_slice(bytes)?;
    Ok(copy)
}

impl Disk for TornDisk {
    ghost seen = { λ m. m.bytes.items };

    // The disk of a run has one outcome: the tests make the others by `after_crash`.
    ghost may_leave = { λ m c. c ≡ m.bytes.items };

    ghost is_usable = { λ m. m.is_usable };

    ghost faults = { λ m. m.faults };

    ghost is_clean = { λ _. true };

    ghost tally_of = { λ m. record { caught = m.caught; refused = 0 } };

    ghost key_of = { λ _. 0 };

    ghost is_fair = { λ _ _. true };

    ghost fair_if_clean = { λ _ _ _. refl };

    ghost seen_may_stay = { λ m. refl };

    ghost is_mixing = { λ m. m.mixes };

    fn mixes(&self) -> bool {
        self.mixes
    }

    fn key(&self) -> u64 {
        0
    }

    fn tally(&self) -> Tally {
        Tally {
            caught: self.caught,
            refused: 0,
        }
    }

    fn may_be_used(&self) -> bool {
        self.is_usable
    }

    fn len(&mut self) -> io::Result<usize> {
        Ok(self.bytes.len())
    }

    fn read_at(&mut self, at: usize, buf: &mut [u8]) -> io::Result<()> {
        if at > self.bytes.len() || buf.len() > self.bytes.len() - at {
            return Err(io::ErrorKind::UnexpectedEof.into());
        }
        buf.copy_from_slice(&self.bytes[at..at + buf.len()]);
        Ok(())
    }

    fn read_checked(&mut self, key: u64, want: u64, at: usize, buf: &mut [u8]) -> io::Result<()> {
        self.read_at(at, buf)?;
        if digest_of(key, buf) != want {
            self.faults = self.faults.saturating_add(1);
            self.caught = self.caught.saturating_add(1);
            return Err(io::ErrorKind::InvalidData.into());
        }
        Ok(())
    }

    fn write_at(&mut self, at: usize, bytes: &[u8]) -> io::Result<()> {
        count(overwrite(&mut self.bytes, at, bytes), &mut self.faults)
    }

    fn set_len(&mut self, len: usize) -> io::Result<()> {
        count(resize(&mut self.bytes, len), &mut self.faults)
    }

    fn sync(&mut self) -> io::Result<()> {
        self.is_usable = false;
        count(replace(&mut self.synced, &self.bytes), &mut self.faults)?;
        self.is_usable = true;
        Ok(())
    }
}

fn count(outcome: Result<(), AllocError>, faults: &mut u64) -> io::Result<()>
    ensures variant { is_ok result ≡ is_ok outcome }
    ensures kind { finds_no_room result ≡ false }
    ensures faults { CountsFault result faults.old faults.new }
{
    if outcome.is_err() {
        *faults = faults.saturating_add(1);
        return Err(io::Error::from(io::ErrorKind::OutOfMemory));
    }
    Ok(())
}

fn replace(file: &mut Vec<u8>, bytes: &[u8]) -> Result<(), AllocError> {
    let mut copy = Vec::new(*file.allocator());
    copy.extend_from_slice(bytes)?;
    *file = copy;
    Ok(())
}

fn resize(file: &mut Vec<u8>, len: usize) -> Result<(), AllocError>
    ensures len { OnOk result (length file.new.items ≡ len) }
    ensures others { Cut len file.old.items file.new.items }
{
    file.resize(len, 0)
}

fn overwrite(file: &mut Vec<u8>, at: usize, bytes: &[u8]) -> Result<(), AllocError>
    ensures written { OnOk result (Holds file.new.items at bytes.now) }
    ensures others { Torn at (length bytes.now) file.old.items file.new.items }
    ensures mixed { Mixed at bytes.now file.old.items file.new.items }
{
    let end = at.checked_add(bytes.len()).ok_or(AllocError)?;
    if end > file.len() {
        resize(file, end)?;
    }
    file[at..end].copy_from_slice(bytes);
    Ok(())
}
