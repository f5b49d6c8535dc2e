// A relay alone.
use crate::attempt::{Attempt, Stop};
use lsp_message::{Message, Notification};
use lsp_relay::{Parcel, Taken};
use lsp_server::relay;
use serde_json::Value;
use std::alloc::{AllocError, Global};
use std::sync::Wait;

/// Sends a notification of this method and the end, takes and settles them. A relay that gives something else ends the
/// program, since sessions in threads would wait for a message that is lost.
pub fn relayed<R: Wait>(rt: &R, alloc: Global, method: &str) -> Result<Attempt, Stop> {
    let note = note_of(alloc, method)?;
    let text = note.member_text(alloc);
    let (mut tx, mut rx) = match relay(alloc, 2) {
        Ok(ends) => ends,
        Err(_) => {
            drop(note);
            return Err(Stop::Memory);
        }
    };
    let sent = tx.send(rt, Parcel::Message(note));
    let is_sent = sent.is_ok();
    drop(sent);
    let ended = tx.send(rt, Parcel::End);
    let is_ended = ended.is_ok();
    drop(ended);
    let taken = same_name(alloc, rx.take(rt), text);
    if let Err(stop) = taken {
        drop(rx);
        drop(tx);
        return Err(stop);
    }
    let settled = name_of(alloc, rx.settle(rt, &mut tx));
    let again = name_of(alloc, rx.settle(rt, &mut tx));
    drop(rx);
    drop(tx);
    let (taken, settled, again) = (taken?, settled?, again?);
    Ok(Attempt::came(format!(in alloc;
        "sent {is_sent}, ended {is_ended}, taken {taken}, settled {settled}, settled again {again}"
    )?))
}

/// Sends a notification of this method between two wake-ups, and the end after them. One wake-up is ignored, and the
/// other found. A wake-up fails once the receiver's end is gone.
pub fn woken<R: Wait>(rt: &R, alloc: Global, method: &str) -> Result<Attempt, Stop> {
    let (mut tx, mut rx) = relay(alloc, 4)?;
    let mut waker = tx.waker()?;
    let mut other = waker.another()?;
    let note = match note_of(alloc, method) {
        Ok(note) => note,
        Err(_) => return Err(Stop::Memory),
    };
    let is_woken = waker.wake(rt);
    let sent = tx.send(rt, Parcel::Message(note));
    let is_sent = sent.is_ok();
    drop(sent);
    let is_woken_again = other.wake(rt);
    let ended = tx.send(rt, Parcel::End);
    let is_ended = ended.is_ok();
    drop(ended);
    let taken = name_of(alloc, rx.take(rt));
    let found = match rx.take_or_wake(rt) {
        Taken::Parcel(parcel) => name_of_parcel(alloc, parcel),
        Taken::Wake => String::from_str(alloc, "a wake"),
        Taken::Nothing => String::from_str(alloc, "nothing"),
    };
    let settled = name_of(alloc, rx.settle(rt, &mut tx));
    drop(rx);
    let is_woken_late = waker.wake(rt);
    drop(other);
    drop(waker);
    drop(tx);
    let (taken, found, settled) = (taken?, found?, settled?);
    Ok(Attempt::came(format!(in alloc;
        "woken {is_woken}, sent {is_sent}, woken {is_woken_again}, ended {is_ended}, taken {taken}, found {found}, settled {settled}, woken {is_woken_late}"
    )?))
}

fn name_of(alloc: Global, parcel: Option<Parcel<Message>>) -> Result<String, AllocError> {
    match parcel {
        Some(parcel) => name_of_parcel(alloc, parcel),
        None => String::from_str(alloc, "nothing"),
    }
}

fn name_of_parcel(alloc: Global, parcel: Parcel<Message>) -> Result<String, AllocError> {
    match parcel {
        Parcel::Message(message) => {
            let text = message.member_text(alloc);
            drop(message);
            text
        }
        Parcel::End => String::from_str(alloc, "the end"),
    }
}

/// The name of a parcel whose message has this text.
fn same_name(
    alloc: Global,
    parcel: Option<Parcel<Message>>,
    text: Result<String, AllocError>,
) -> Result<String, Stop> {
    let (taken, text) = (name_of(alloc, parcel)?, text?);
    if taken != text {
        return Err(Stop::Broken("a relay gave something else than was sent"));
    }
    Ok(taken)
}

/// A notification of this method.
fn note_of(alloc: Global, method: &str) -> Result<Message, AllocError> {
    Ok(Message::Notification(Notification {
        method: String::from_str(alloc, method)?,
        params: Value::Null,
    }))
}
