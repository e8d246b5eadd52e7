//! The progress of a run, shown on a terminal.

use explorers::Gate;
use std::io::Write;
use std::rt::Clock;
use std::sync::atomic::Ordering::SeqCst;
use std::sync::atomic::{AtomicBool, AtomicU64};
use std::time::Instant;

/// How many milliseconds a run lasts before the line comes.
const FIRST: u64 = 1000;

/// The least number of milliseconds between two lines.
const BETWEEN: u64 = 250;

/// Clears the terminal's line.
const WIPED: &str = "\r\x1b[K";

/// Shows how many sets were visited or workloads judged, of how many if that is known, and how many of them fail, on
/// one line that is rewritten.
///
/// The line comes only on a terminal, once the run has lasted a second, and is gone when the answer comes. Workers are
/// not held at their claims, and one of them at a time writes.
#[derive(Drop)]
pub struct Progress<'a, C: Clock, E: Write + Copy> {
    clock: &'a C,
    err: E,
    /// What is counted.
    what: &'static str,
    /// When the run began, if lines are shown.
    start: Option<Instant>,
    /// How many sets will be visited, or 0 if that is not known.
    expected: AtomicU64,
    /// How many sets were visited or workloads judged, and how many of them fail.
    done: AtomicU64,
    failing: AtomicU64,
    /// After how many milliseconds of the run the next line is due.
    due: AtomicU64,
    is_taken: AtomicBool,
    is_shown: AtomicBool,
}

impl<'a, C: Clock, E: Write + Copy> Progress<'a, C, E> {
    /// At the beginning of a run. Nothing is ever written if `err` is not a terminal.
    pub fn new(clock: &'a C, err: E, is_terminal: bool) -> Progress<'a, C, E> {
        let start = if is_terminal {
            Instant::now(clock).ok()
        } else {
            None
        };
        Progress {
            clock,
            err,
            what: "sets visited",
            start,
            expected: AtomicU64::new(0),
            done: AtomicU64::new(0),
            failing: AtomicU64::new(0),
            due: AtomicU64::new(FIRST),
            is_taken: AtomicBool::new(false),
            is_shown: AtomicBool::new(false),
        }
    }

    /// The same, for a run that judges workloads.
    pub fn of_workloads(mut self) -> Progress<'a, C, E> {
        self.what = "workloads judged";
        self
    }

    /// How many milliseconds the run has lasted, if a line is due now.
    fn due_at(&self) -> Option<u64> {
        let start = self.start?;
        let lasted = start.elapsed(self.clock).ok()?;
        let now = u64::try_from(lasted.as_millis()).ok()?;
        if now >= self.due.load(SeqCst) {
            Some(now)
        } else {
            None
        }
    }

    /// Writes the line again.
    fn show(&self, now: u64) {
        let (done, failing) = (self.done.load(SeqCst), self.failing.load(SeqCst));
        let (mut err, what, expected) = (self.err, self.what, self.expected.load(SeqCst));
        let _ = if expected > 0 {
            write!(err, "{WIPED}{done} of {expected} {what}, {failing} failing")
        } else {
            write!(err, "{WIPED}{done} {what}, {failing} failing")
        };
        self.is_shown.store(true, SeqCst);
        self.due.store(now.saturating_add(BETWEEN), SeqCst);
    }
}

impl<'a, C: Clock, E: Write + Copy> Gate for Progress<'a, C, E> {
    fn claimed(&self, _worker: usize, _set: u128) {}

    fn expects(&self, sets: usize) {
        self.expected.fetch_add(sets as u64, SeqCst);
    }

    fn visited(&self, done: usize, failing: usize) {
        self.done.fetch_add(done as u64, SeqCst);
        self.failing.fetch_add(failing as u64, SeqCst);
        if self.start.is_none() || self.is_taken.swap(true, SeqCst) {
            return;
        }
        if let Some(now) = self.due_at() {
            self.show(now);
        }
        self.is_taken.store(false, SeqCst);
    }

    fn ended(&self) {
        if self.is_shown.swap(false, SeqCst) {
            let mut err = self.err;
            let _ = err.write_all(WIPED.as_bytes());
        }
    }
}
