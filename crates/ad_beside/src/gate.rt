//! The gate.

use ad_base::{Gate, Point};
use std::alloc::{AllocError, Global};
use std::sync::atomic::{AtomicBool, Ordering};
use std::thread;

/// A point of a line, to which a call or the mover comes.
#[derive(Clone, Copy, Debug, PartialEq, Eq)]
pub struct Stop {
    /// The line of the script.
    pub line: u64,
    pub point: Point,
}

/// Whoever comes to a stop is held there until these others were come to.
#[derive(Clone, Copy, Debug)]
pub struct Hold<'a> {
    pub at: Stop,
    pub until: &'a [Stop],
}

/// How often a wait looks before it is given up.
const MOST_LOOKS: u32 = 10_000_000;

/// A gate that holds up by a list of holds. A wait that lasts too long is given up, and told by `gave_up`.
#[derive(Drop)]
pub struct HoldingGate<'a> {
    holds: &'a [Hold<'a>],
    /// Each stop that a hold waits for, and whether it was come to.
    seen: Vec<Seen>,
    gave_up: AtomicBool,
}

/// A stop, and whether it was come to.
#[derive(Drop)]
struct Seen {
    stop: Stop,
    came: AtomicBool,
}

impl<'a> HoldingGate<'a> {
    /// The gate of these holds. The one error is want of memory.
    pub fn new(alloc: Global, holds: &'a [Hold<'a>]) -> Result<HoldingGate<'a>, AllocError> {
        let mut seen = Vec::new(alloc);
        for hold in holds {
            for stop in hold.until {
                seen.push(Seen {
                    stop: *stop,
                    came: AtomicBool::new(false),
                })?;
            }
        }
        Ok(HoldingGate {
            holds,
            seen,
            gave_up: AtomicBool::new(false),
        })
    }

    /// Whether a wait was given up.
    pub fn gave_up(&self) -> bool {
        self.gave_up.load(Ordering::SeqCst)
    }

    /// Notes that this stop was come to.
    fn note(&self, stop: Stop) {
        for seen in &self.seen {
            if seen.stop == stop {
                seen.came.store(true, Ordering::SeqCst);
            }
        }
    }

    /// Whether this stop was come to.
    fn came(&self, stop: Stop) -> bool {
        self.seen.iter().any(|seen| seen.stop == stop && seen.came.load(Ordering::SeqCst))
    }

    /// Whether all of these stops were come to.
    fn came_to_all(&self, stops: &[Stop]) -> bool {
        stops.iter().all(|stop| self.came(*stop))
    }

    /// Waits until all of these stops were come to, and yields between two looks.
    fn await_all(&self, stops: &[Stop]) {
        for _look in 0..MOST_LOOKS {
            if self.came_to_all(stops) {
                return;
            }
            thread::yield_now();
        }
        self.gave_up.store(true, Ordering::SeqCst);
    }
}

impl Gate for HoldingGate<'_> {
    fn pause(&self, _who: u64, line: u64, point: Point) {
        let here = Stop { line, point };
        self.note(here);
        for hold in self.holds {
            if hold.at == here {
                self.await_all(hold.until);
            }
        }
    }
}
