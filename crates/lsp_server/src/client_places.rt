//! The places of the clients of an address that are served at the same time.
use std::sync::{Condvar, Mutex, Wait};

/// How many more clients may be served now.
#[derive(Drop)]
pub(crate) struct ClientPlaces {
    free: Mutex<usize>,
    freed: Condvar,
}

impl ClientPlaces {
    /// Makes so many free places.
    pub(crate) fn new(count: usize) -> ClientPlaces {
        ClientPlaces {
            free: Mutex::new(count),
            freed: Condvar::new(),
        }
    }

    /// Takes a place. It waits until one is free.
    pub(crate) fn take<R: Wait>(&self, rt: &R) {
        let free = self.free.lock(rt);
        let mut free = self.freed.wait_while(rt, free, |free| *free == 0);
        *free -= 1;
    }

    /// Gives a place back.
    pub(crate) fn give_back<R: Wait>(&self, rt: &R) {
        let mut free = self.free.lock(rt);
        *free = free.saturating_add(1);
        drop(free);
        self.freed.notify_one();
    }
}
