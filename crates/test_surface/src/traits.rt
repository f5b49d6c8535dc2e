//! The traits that were asked for of each public type.
use lsp_server::dispatch::{Answer, Call, DispatchFault, Dispatcher};
use lsp_server::{
    CallGate, ErrorCode, Event, ExtractError, FrameOutbox, Front, Gate, Inbox, Incoming, IoFault,
    Link, ListGate, ListInbox, ListOutbox, Message, Notification, OpenGate, Outbox, Outcome,
    Outgoing, Parcel, ProtocolError, PumpFault, ReadEnd, ReadFault, RegisterFault, ReqQueue,
    Request, RequestId, Response, ResponseError, SendFault, SessionEnd, SessionFault, Side,
    StartFault, Step, StreamInbox, Threaded, World, WorldFault, WriteEnd, WriteFault,
};
use std::fmt::{Debug, Display};
use std::hash::Hash;
use std::io::{BufRead, Write};

fn debug<T: Debug>() {}

fn display<T: Display>() {}

fn clones<T: Clone>() {}

fn copies<T: Copy>() {}

fn equal<T: PartialEq>() {}

fn ordered<T: Eq + Ord + Hash>() {}

fn inbox<T: Inbox>() {}

fn outbox<T: Outbox>() {}

fn gate<T: Gate>() {}

pub fn debug_of_messages<T: Debug>() {
    debug::<Front>();
    debug::<ReadFault>();
    debug::<WriteFault>();
    debug::<Message>();
    debug::<Request>();
    debug::<Response>();
    debug::<ResponseError>();
    debug::<Notification>();
    debug::<RequestId>();
    debug::<ErrorCode>();
    debug::<ProtocolError>();
    debug::<ExtractError<T>>();
    debug::<RegisterFault<T>>();
    debug::<ReqQueue<T, T>>();
    debug::<Incoming<T>>();
    debug::<Outgoing<T>>();
}

pub fn debug_of_sessions<T: Debug>() {
    debug::<Event>();
    debug::<SendFault>();
    debug::<ListInbox>();
    debug::<ListOutbox>();
    debug::<ListGate>();
    debug::<OpenGate>();
    debug::<ReadEnd>();
    debug::<WriteEnd>();
    debug::<SessionEnd>();
    debug::<SessionFault>();
    debug::<Parcel>();
    debug::<PumpFault>();
    debug::<StartFault>();
    debug::<Threaded<T>>();
    debug::<IoFault>();
}

pub fn debug_of_peers() {
    debug::<Link>();
    debug::<World>();
    debug::<Side>();
    debug::<Step>();
    debug::<Outcome>();
    debug::<WorldFault>();
    debug::<Dispatcher>();
    debug::<Answer>();
    debug::<Call>();
    debug::<DispatchFault>();
}

pub fn display_of_faults<T>() {
    display::<RequestId>();
    display::<ProtocolError>();
    display::<ExtractError<Request>>();
    display::<ExtractError<Notification>>();
    display::<ReadFault>();
    display::<WriteFault>();
    display::<RegisterFault<T>>();
    display::<StartFault>();
    display::<PumpFault>();
    display::<SessionFault>();
    display::<IoFault>();
    display::<WorldFault>();
    display::<DispatchFault>();
}

pub fn values() {
    clones::<Message>();
    clones::<Request>();
    clones::<Response>();
    clones::<ResponseError>();
    clones::<Notification>();
    clones::<RequestId>();
    clones::<ProtocolError>();
    clones::<ErrorCode>();
    copies::<ErrorCode>();
    equal::<ProtocolError>();
    ordered::<RequestId>();
}

pub fn boxes<'a, R: BufRead + 'a, W: Write + 'a, C: Fn() -> bool>() {
    inbox::<ListInbox>();
    inbox::<StreamInbox<'a, R>>();
    outbox::<ListOutbox>();
    outbox::<FrameOutbox<'a, W>>();
    gate::<ListGate>();
    gate::<OpenGate>();
    gate::<CallGate<C>>();
}
