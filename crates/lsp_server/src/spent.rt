//! Messages that this side made and that were written, on their way to the thread that made them. Two threads that
//! allocate and free in one arena of the C library wait for its lock, so a message is best freed by its maker.
use lsp_relay::give_back::{GiveBack, GivenBack, way_back};
use std::alloc::{AllocError, Global};
use std::sync::atomic::{AtomicBool, Ordering};
use std::sync::{Arc, Wait};

/// How many messages wait for their maker.
const SPENT_ROOM: usize = 4;

/// Where the thread that writes sends messages that this side made.
#[derive(Drop)]
pub(crate) struct ToMaker<M: Drop> {
    back: GiveBack<M>,
    is_wanted: Arc<AtomicBool>,
}

impl<M: Drop> ToMaker<M> {
    /// Passes a message to its maker, or drops it here. A large message is passed only if no other one waits. It
    /// doesn't wait.
    pub(crate) fn let_go<R: Wait>(&self, rt: &R, message: M, is_large: bool) {
        let is_wanted = self.is_wanted.load(Ordering::Relaxed);
        if is_wanted && (!is_large || self.back.is_empty()) {
            self.back.give_or_drop(rt, message);
        } else {
            drop(message);
        }
    }
}

/// Where the maker receives such messages: none before the first call of `drop_waiting`.
#[derive(Drop)]
pub(crate) struct Spent<M: Drop> {
    back: GivenBack<M>,
    is_wanted: Arc<AtomicBool>,
}

impl<M: Drop> Spent<M> {
    /// Drops the messages that came, and asks for further ones. It doesn't wait.
    pub(crate) fn drop_waiting<R: Wait>(&self, rt: &R) {
        self.is_wanted.store(true, Ordering::Relaxed);
        self.back.drop_waiting(rt);
    }
}

/// Makes the two ends.
pub(crate) fn way_to_maker<M: Drop>(alloc: Global) -> Result<(ToMaker<M>, Spent<M>), AllocError> {
    let (to_maker, back) = way_back(alloc, SPENT_ROOM)?;
    let wanted = Arc::new(alloc, AtomicBool::new(false))?;
    let is_wanted = wanted.clone()?;
    let to_maker = ToMaker {
        back: to_maker,
        is_wanted,
    };
    let spent = Spent {
        back,
        is_wanted: wanted,
    };
    Ok((to_maker, spent))
}
