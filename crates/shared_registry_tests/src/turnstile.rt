//! A gate (test hook) that holds batches of changes, or some of them, for at most ten seconds each.

use crate::failed::Failed;
use shared_registry::{Gate, Point};
use std::sync::atomic::{AtomicBool, AtomicU64, Ordering};
use std::thread;
use std::time::{Clock, Duration};

/// How often a thread checks before it gives up, at intervals of a millisecond.
pub const TURNS: u64 = 10_000;

/// Holds the batches of the seats from one number on, at one point. The k-th batch that comes waits there until k were let on.
/// Once a given number has come, all are let on.
#[derive(Drop)]
pub struct Turnstile<'a, R: Clock> {
    rt: &'a R,
    point: Point,
    first: usize,
    met: u64,
    came: AtomicU64,
    let_on: AtomicU64,
    left: AtomicBool,
    gave_up: AtomicBool,
}

impl<'a, R: Clock> Turnstile<'a, R> {
    pub fn new(rt: &'a R, point: Point, first: usize, met: u64) -> Turnstile<'a, R> {
        Turnstile {
            rt,
            point,
            first,
            met,
            came: AtomicU64::new(0),
            let_on: AtomicU64::new(0),
            left: AtomicBool::new(false),
            gave_up: AtomicBool::new(false),
        }
    }

    /// Waits until this many have come, or no more will come. Returns true if they have.
    pub fn holds(&self, count: u64) -> bool {
        for _ in 0..TURNS {
            let left = self.left.load(Ordering::SeqCst);
            if self.came.load(Ordering::SeqCst) >= count {
                return true;
            }
            if left {
                return false;
            }
            thread::sleep(self.rt, Duration::from_millis(1));
        }
        false
    }

    /// Waits until this many are let on. Returns true if they are.
    fn is_let_on(&self, count: u64) -> bool {
        for _ in 0..TURNS {
            if self.let_on.load(Ordering::SeqCst) >= count {
                return true;
            }
            thread::sleep(self.rt, Duration::from_millis(1));
        }
        false
    }

    /// No more batches will come.
    pub fn leaves(&self) {
        self.left.store(true, Ordering::SeqCst);
    }

    /// Lets this many on in all.
    pub fn lets_on(&self, count: u64) {
        self.let_on.store(count, Ordering::SeqCst);
    }

    /// Lets all batches on.
    pub fn opens(&self) {
        self.lets_on(u64::MAX);
    }

    /// Returns how many came, or an error if one went on because it had waited too long.
    pub fn passes(&self) -> Result<u64, Failed> {
        if self.gave_up.load(Ordering::SeqCst) {
            return Err(Failed("no leave came, as where there is no memory for a thread"));
        }
        Ok(self.came.load(Ordering::SeqCst))
    }
}

impl<'a, R: Clock> Gate for Turnstile<'a, R> {
    fn pass(&self, point: Point, seat: u32, _call: u64) {
        if point != self.point || (seat as usize) < self.first {
            return;
        }
        let count = self.came.fetch_add(1, Ordering::SeqCst).wrapping_add(1);
        if count >= self.met {
            self.opens();
        }
        if !self.is_let_on(count) {
            self.gave_up.store(true, Ordering::SeqCst);
        }
    }
}
