// The trees of results, on their way back to the session's thread after their text was made. Two threads that allocate
// and free in one arena of the C library wait for its lock, so a tree is best freed by the thread that allocated it.
// That is the session's thread if a job returns its params. Most other trees are allocated by the worker itself.
use lsp_relay::give_back::{GiveBack, GivenBack, way_back};
use serde_json::{Map, Value};
use std::alloc::{AllocError, Global};
use std::sync::atomic::{AtomicUsize, Ordering};
use std::sync::{Arc, Wait};

/// How many small trees may wait for the session's thread.
const SMALL_ROOM: usize = 4;

/// How many large trees may wait beside them.
const LARGE_ROOM: usize = 1;

/// From how many bytes on a tree is large.
const LARGE: usize = 65536;

/// About how many bytes a value takes in its list or its object.
const ITEM: usize = 32;

/// The end of the workers.
#[derive(Drop)]
pub(crate) struct TreeReturn {
    small: GiveBack<Value>,
    large: GiveBack<Value>,
    /// The size of the params of the last long request.
    params_size: AtomicUsize,
}

impl TreeReturn {
    /// Passes a tree to the session's thread if that may have allocated it. Otherwise, or if there is no room, the tree
    /// is freed here. It doesn't wait.
    pub fn give_back<T: Wait>(&self, rt: &T, tree: Value) {
        match self.channel_for(heap_size(&tree)) {
            Some(channel) => channel.give_or_drop(rt, tree),
            None => drop(tree),
        }
    }

    /// Returns the channel for a tree of this size. `None` means that there is nothing to free, or that the tree is not
    /// from the last params, which are smaller.
    fn channel_for(&self, size: usize) -> Option<&GiveBack<Value>> {
        if size == 0 || size > self.params_size.load(Ordering::Relaxed) {
            None
        } else if size < LARGE {
            Some(&self.small)
        } else {
            Some(&self.large)
        }
    }
}

/// The end of the session's thread.
#[derive(Drop)]
pub(crate) struct ReturnedTrees {
    small: GivenBack<Value>,
    large: GivenBack<Value>,
    workers_end: Arc<TreeReturn, Global>,
}

impl ReturnedTrees {
    /// Makes the channels, and returns both ends.
    pub fn new(alloc: Global) -> Result<(ReturnedTrees, Arc<TreeReturn, Global>), AllocError> {
        let (to_small, small) = way_back(alloc, SMALL_ROOM)?;
        let (to_large, large) = way_back(alloc, LARGE_ROOM)?;
        let ends = TreeReturn {
            small: to_small,
            large: to_large,
            params_size: AtomicUsize::new(0),
        };
        let Ok(workers_end) = Arc::new(alloc, ends) else {
            return Err(AllocError);
        };
        let theirs = Arc::try_clone(&workers_end)?;
        let returned = ReturnedTrees {
            small,
            large,
            workers_end,
        };
        Ok((returned, theirs))
    }

    /// Records the params of a long request, whose job may return them as its result.
    pub fn record_params(&self, params: &Value) {
        let size = heap_size(params);
        self.workers_end.params_size.store(size, Ordering::Relaxed);
    }

    /// Frees the trees that came back. It doesn't wait.
    pub fn free_all<T: Wait>(&self, rt: &T) {
        self.small.drop_waiting(rt);
        self.large.drop_waiting(rt);
    }
}

/// Returns about how many bytes a tree takes on the heap, at most `LARGE`.
fn heap_size(tree: &Value) -> usize {
    LARGE.saturating_sub(left_after(tree, LARGE))
}

/// Returns what is left of this many bytes after a tree took its own. It visits no value once nothing is left.
#[cycle(left_after)]
fn left_after(tree: &Value, left: usize) -> usize {
    match tree {
        Value::Array(items) => left_after_items(items, left),
        Value::Object(members) => left_after_members(members, left),
        Value::String(text) => left.saturating_sub(text.len()),
        _ => left,
    }
}

#[cycle(left_after)]
fn left_after_items(items: &Vec<Value>, left: usize) -> usize {
    let mut left = left;
    for item in items {
        if left == 0 {
            return 0;
        }
        left = left_after(item, left.saturating_sub(ITEM));
    }
    left
}

#[cycle(left_after)]
fn left_after_members(members: &Map<String, Value>, left: usize) -> usize {
    let mut left = left;
    for (name, member) in members.iter() {
        if left == 0 {
            return 0;
        }
        let taken = name.len().saturating_add(ITEM);
        left = left_after(member, left.saturating_sub(taken));
    }
    left
}
