// Places of a channel that its sender keeps. A channel tells a sender that its receiver is gone only if it has no place free. A
// sender that has to wait with places free takes these first.
ghost use Rattle.std.specs.Prelude.{◌≡◌, IfErr};
ghost use Rattle.crossbeam_channel.specs.Err.{send_message};

use crossbeam_channel::internal::{Operation, Sink, Source, Token};
use crossbeam_channel::{Receiver, Select, SelectedOperation, SendError, Sender, never};
use std::alloc::{AllocError, Global};
use std::sync::Wait;
use std::time::Clock;

/// A place of a channel that is kept for one message. If this value is dropped, the channel has one place less for the
/// rest of its life.
pub(crate) struct Place<'a, R: Wait> {
    rt: &'a R,
    operation: SelectedOperation<'a>,
}

impl<'a, R: Wait + Clock> Place<'a, R> {
    /// Takes a place that is free. Each call gives one if the receiver is gone. The error means that an allocation
    /// failed.
    pub(crate) fn take<M: Drop>(
        rt: &'a R,
        alloc: Global,
        sender: &'a Sender<M>,
    ) -> Result<Option<Place<'a, R>>, AllocError> {
        let mut select = Select::new(alloc);
        select.send(sender)?;
        match select.try_select(rt) {
            Ok(operation) => Ok(Some(Place { rt, operation })),
            Err(_) => Ok(None),
        }
    }
}

impl<'a, R: Wait> Place<'a, R> {
    /// Sends a message to this place, on the channel that it belongs to.
    pub(crate) fn send<M: Drop>(self, sender: &Sender<M>, message: M) -> Result<(), SendError<M>>
        ensures { IfErr result (λ refused. send_message refused ≡ message) }
    {
        let Place { rt, operation } = self;
        operation.send(rt, sender, message)
    }
}

impl<'a, R: Wait> Drop for Place<'a, R> {
    fn drop(self) {
        let Place { rt, operation } = self;
        let _ = operation.send(rt, &Nowhere { none: never() }, ());
    }
}

/// The target of an operation that sends nothing.
#[derive(Drop)]
struct Nowhere {
    none: Receiver<()>,
}

impl Sink for Nowhere {
    type Item = ();

    fn operation(&self, index: usize) -> Operation<'_> {
        self.none.operation(index)
    }

    fn write<R: Wait>(&self, _rt: &R, _token: Token, _msg: ()) -> Result<(), SendError<()>> {
        Ok(())
    }
}
