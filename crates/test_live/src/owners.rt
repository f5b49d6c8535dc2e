// The part of a connection's owner, up to what its threads answer.
use crate::devices::rest;
use crate::sessions::Run;
use crate::signals::{LOOKS, Signal, Signals, is_alone};
use crate::table::Call;
use crossbeam_channel::{Receiver, Sender};
use lsp_message::Message;
use lsp_server::{Connection, IoFault, IoThreads};
use std::sync::{Arc, Wait};
use std::thread;
use std::thread::Threads;

/// Plays the part, and returns how many messages waited at most, if the call reports that, and the results of the
/// threads.
pub fn parted<R: Threads + Wait>(
    rt: &R,
    run: Run,
    connection: Connection,
    threads: IoThreads,
    signals: &Arc<Signals>,
) -> (usize, Result<(), IoFault>) {
    let Connection { sender, receiver } = connection;
    match run.call {
        Call::Joined => return (0, threads.join(rt)),
        Call::Deaf => {
            waiting(signals, &receiver, run.written);
            drop(receiver);
            return (0, threads.join(rt));
        }
        Call::Stuck => {
            stick(rt, &sender, &receiver, signals);
            waiting(signals, &receiver, run.written);
            drop(receiver);
            drop(sender);
            return (0, released(threads.join(rt), signals));
        }
        _ => {}
    }
    let most = passed_back(rt, run, &sender, &receiver, &threads, signals);
    drop(receiver);
    drop(sender);
    (most, threads.flush(rt).join(rt))
}

/// Does what is to be done before the connection is dropped: each message is sent back, or none. `Over` also drops what
/// was written.
fn passed_back<R: Wait>(
    rt: &R,
    run: Run,
    sender: &Sender<Message>,
    receiver: &Receiver<Message>,
    threads: &IoThreads,
    signals: &Arc<Signals>,
) -> usize {
    let most = match run.call {
        Call::Held | Call::Dropped => waiting(signals, receiver, run.written),
        _ => 0,
    };
    if matches!(run.call, Call::Over | Call::Held) {
        for message in receiver.iter(rt) {
            if matches!(run.call, Call::Over) {
                threads.drop_written(rt);
            }
            drop(sender.send(rt, message));
        }
    }
    most
}

/// How many hold the signals while both devices are there.
const HOLDERS: usize = 3;

/// How often the other threads may go on, where they should not.
const RESTS: u32 = 50;

/// Waits until this many messages wait, and a while longer, and returns how many wait then. It stops waiting if a
/// thread has ended.
fn waiting(signals: &Arc<Signals>, receiver: &Receiver<Message>, wanted: u64) -> usize {
    for _ in 0..LOOKS {
        if receiver.len() as u64 >= wanted || Arc::strong_count(signals) < HOLDERS {
            for _ in 0..RESTS {
                rest();
            }
            return receiver.len();
        }
        thread::yield_now();
    }
    signals.give_up();
    receiver.len()
}

/// Sends the first message back, and waits until the writer has begun to write it, or has ended.
fn stick<R: Wait>(
    rt: &R,
    sender: &Sender<Message>,
    receiver: &Receiver<Message>,
    signals: &Arc<Signals>,
) {
    let Ok(message) = receiver.recv(rt) else {
        return;
    };
    drop(sender.send(rt, message));
    for _ in 0..LOOKS {
        if signals.count(Signal::Writes) > 0 || Arc::strong_count(signals) < HOLDERS {
            return;
        }
        thread::yield_now();
    }
    signals.give_up();
}

/// Lets the writer go on and end. Its message is written, unless no memory was left for the frame.
fn released(ended: Result<(), IoFault>, signals: &Arc<Signals>) -> Result<(), IoFault> {
    signals.tell(Signal::Requests);
    if !is_alone(signals) {
        signals.give_up();
    }
    if signals.count(Signal::Messages) == 0 {
        return Err(IoFault::Memory);
    }
    ended
}
