//! A base whose reads wait for one another, for a while.

ghost use Rattle.saw_address.specs.Maps.{no_entries};

use saw_address::{Address, Base};
use std::sync::atomic::{AtomicU64, Ordering};
use std::thread;

/// More turns than a thread needs to come to its read.
const MAX_TURNS: u32 = 1_000_000;

/// An address, how often it was read, and at which of the addresses a read must have come before one of it goes on.
#[derive(Drop)]
pub(crate) struct Watched {
    pub(crate) address: Address,
    pub(crate) reads: AtomicU64,
    pub(crate) after: usize,
}

impl Watched {
    pub(crate) fn new(address: Address, after: usize) -> Self {
        Watched {
            address,
            reads: AtomicU64::new(0),
            after,
        }
    }
}

/// A base with no entries. It counts its reads, and those that waited in vain.
#[derive(Drop)]
pub(crate) struct Waits {
    pub(crate) watched: Vec<Watched>,
    pub(crate) vain: AtomicU64,
}

impl Waits {
    /// How often the address at a place was read.
    pub(crate) fn reads_of(&self, place: usize) -> u64 {
        match self.watched.get(place) {
            Some(watched) => watched.reads.load(Ordering::SeqCst),
            None => 0,
        }
    }

    // Waits, for a while, until a read of the address at a place has come.
    fn wait_for(&self, place: usize) {
        for _ in 0..MAX_TURNS {
            if self.reads_of(place) > 0 {
                return;
            }
            thread::yield_now();
        }
        self.vain.fetch_add(1, Ordering::SeqCst);
    }

    // Counts a read of an address, and waits for the one that it is to come behind.
    fn count_read(&self, at: &Address) {
        for watched in &self.watched {
            if watched.address == *at {
                watched.reads.fetch_add(1, Ordering::SeqCst);
                self.wait_for(watched.after);
            }
        }
    }
}

impl Base for Waits {
    ghost entry = { λ _. no_entries };

    fn get(&self, at: &Address) -> Option<&[u8]> {
        self.count_read(at);
        None
    }
}
