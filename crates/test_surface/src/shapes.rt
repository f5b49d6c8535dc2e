//! Each public type whose variants or fields were asked for, taken apart without `..`.
use crossbeam_channel::{Receiver, Sender};
use lsp_server::dispatch::{Answer, Call, DispatchFault};
use lsp_server::{
    Connection, ErrorCode, Event, ExtractError, Front, Incoming, IoFault, Message, Notification,
    Outcome, Outgoing, Parcel, PumpFault, ReadEnd, ReadFault, RegisterFault, ReqQueue, Request,
    RequestId, Response, ResponseError, SendFault, SessionEnd, SessionFault, Side, StartFault,
    Step, Threaded, WorldFault, WriteEnd, WriteFault,
};
use serde_json::Value;

pub fn message(value: &Message) -> u8 {
    match value {
        Message::Request(
            Request {
                id: _,
                method: _,
                params: _,
            },
        ) => 1,
        Message::Response(
            Response {
                id: _,
                response_result: Ok(_),
            },
        ) => 2,
        Message::Response(
            Response {
                id: _,
                response_result: Err(
                    ResponseError {
                        code: _,
                        message: _,
                        data: _,
                    },
                ),
            },
        ) => 3,
        Message::Notification(
            Notification {
                method: _,
                params: _,
            },
        ) => 4,
    }
}

pub fn request(value: &Request) -> (&RequestId, &String, &Value) {
    let Request { id, method, params } = value;
    (id, method, params)
}

pub fn response(value: &Response) -> (&RequestId, &Result<Value, ResponseError>) {
    let Response {
        id,
        response_result,
    } = value;
    (id, response_result)
}

pub fn response_error(value: &ResponseError) -> (i32, &String, &Option<Value>) {
    let ResponseError {
        code,
        message,
        data,
    } = value;
    (*code, message, data)
}

pub fn notification(value: &Notification) -> (&String, &Value) {
    let Notification { method, params } = value;
    (method, params)
}

pub fn error_code(value: ErrorCode) -> u8 {
    match value {
        ErrorCode::ParseError => 1,
        ErrorCode::InvalidRequest => 2,
        ErrorCode::MethodNotFound => 3,
        ErrorCode::InvalidParams => 4,
        ErrorCode::InternalError => 5,
        ErrorCode::ServerErrorStart => 6,
        ErrorCode::ServerErrorEnd => 7,
        ErrorCode::ServerNotInitialized => 8,
        ErrorCode::UnknownErrorCode => 9,
        ErrorCode::RequestCanceled => 10,
        ErrorCode::ContentModified => 11,
        ErrorCode::ServerCancelled => 12,
        ErrorCode::RequestFailed => 13,
    }
}

pub fn read_fault(value: ReadFault) -> u8 {
    match value {
        ReadFault::Input(_) => 1,
        ReadFault::LineNotText => 2,
        ReadFault::LineEnd => 3,
        ReadFault::NoSeparator => 4,
        ReadFault::BadLength => 5,
        ReadFault::NoLength => 6,
        ReadFault::ShortBody => 7,
        ReadFault::BodyNotText => 8,
        ReadFault::NoJson => 9,
        ReadFault::NoMessage => 10,
        ReadFault::Memory => 11,
        ReadFault::TooLong => 12,
        ReadFault::Batch => 13,
        // beyond
        ReadFault::HeaderTooLong => 14,
    }
}

pub fn write_fault(value: WriteFault) -> u8 {
    match value {
        WriteFault::Output(_) => 1,
        WriteFault::Memory => 2,
    }
}

pub fn front(value: Front) -> usize {
    match value {
        Front::Whole(count) => count,
        Front::Fault(number) => number as usize,
        Front::More => 0,
    }
}

pub fn extract_error<T>(value: &ExtractError<T>) -> u8 {
    match value {
        ExtractError::MethodMismatch(_) => 1,
        ExtractError::JsonError {
            method: _,
            error: _,
        } => 2,
    }
}

pub fn register_fault<T>(value: &RegisterFault<T>) -> u8 {
    match value {
        RegisterFault::Memory(_) => 1,
        RegisterFault::Unwritable(_) => 2,
        RegisterFault::Spent(_) => 3,
    }
}

pub fn queues<I, O>(value: &ReqQueue<I, O>) -> (&Incoming<I>, &Outgoing<O>) {
    let ReqQueue { incoming, outgoing } = value;
    (incoming, outgoing)
}

pub fn event(value: &Event) -> u8 {
    match value {
        Event::Message(_) => 1,
        Event::Timeout => 2,
        Event::Closed => 3,
    }
}

pub fn send_fault(value: &SendFault) -> &Message {
    match value {
        SendFault::Closed(back) => back,
        SendFault::Memory(back) => back,
    }
}

pub fn read_end(value: ReadEnd) -> u8 {
    match value {
        ReadEnd::Exit => 1,
        ReadEnd::End => 2,
        ReadEnd::Fault(_) => 3,
        ReadEnd::Closed => 4,
        ReadEnd::Memory => 5,
    }
}

pub fn write_end(value: WriteEnd) -> u8 {
    match value {
        WriteEnd::Closed => 1,
        WriteEnd::Fault(_) => 2,
    }
}

pub fn session_end(value: SessionEnd) -> u8 {
    match value {
        SessionEnd::ShutDown => 1,
        SessionEnd::Closed => 2,
    }
}

pub fn session_fault(value: &SessionFault) -> u8 {
    match value {
        SessionFault::Protocol(_) => 1,
        SessionFault::Read(_) => 2,
        SessionFault::Write(_) => 3,
        SessionFault::Memory => 4,
    }
}

pub fn parcel(value: &Parcel) -> u8 {
    match value {
        Parcel::Message(_) => 1,
        Parcel::End => 2,
    }
}

pub fn start_fault(value: StartFault) -> u8 {
    match value {
        StartFault::Memory => 1,
        StartFault::Thread => 2,
    }
}

pub fn pump_fault(value: PumpFault) -> u8 {
    match value {
        PumpFault::Read(_) => 1,
        PumpFault::Write(_) => 2,
        PumpFault::Start(_) => 3,
    }
}

pub fn threaded<W>(value: &Threaded<W>) -> (&W, &Result<SessionEnd, SessionFault>) {
    let Threaded { writer, answer } = value;
    (writer, answer)
}

pub fn connection(value: &Connection) -> (&Sender<Message>, &Receiver<Message>) {
    let Connection { sender, receiver } = value;
    (sender, receiver)
}

pub fn io_fault(value: IoFault) -> u8 {
    match value {
        IoFault::Read(_) => 1,
        IoFault::Write(_) => 2,
        IoFault::Closed => 3,
        IoFault::Start => 4,
        IoFault::Socket(_) => 5,
        IoFault::Memory => 6,
    }
}

pub fn world_fault(value: WorldFault) -> u8 {
    match value {
        WorldFault::Memory => 1,
        WorldFault::NotReadBack => 2,
    }
}

pub fn side(value: Side) -> u8 {
    match value {
        Side::A => 1,
        Side::B => 2,
    }
}

pub fn step(value: &Step) -> u8 {
    match value {
        Step::Register {
            side: _,
            method: _,
            params: _,
            payload: _,
        } => 1,
        Step::Pass { to: _, bytes: _ } => 2,
        Step::Take { side: _, label: _ } => 3,
        Step::Answer {
            side: _,
            id: _,
            result: _,
        } => 4,
        Step::Cancel { side: _, id: _ } => 5,
        Step::GiveUp { side: _, id: _ } => 6,
        // beyond
        Step::Tell {
            side: _,
            method: _,
            params: _,
        } => 7,
        Step::Refuse {
            side: _,
            id: _,
            code: _,
            message: _,
        } => 8,
    }
}

pub fn outcome(value: &Outcome) -> u8 {
    match value {
        Outcome::Registered(_) => 1,
        Outcome::Spent => 2,
        Outcome::Passed(_) => 3,
        Outcome::Arrived(_) => 4,
        Outcome::Returned(_, _) => 5,
        Outcome::Waiting => 6,
        Outcome::Answered(_) => 7,
        Outcome::Absent => 8,
        Outcome::Cancelled => 9,
        Outcome::GaveUp(_) => 10,
        // beyond
        Outcome::Told | Outcome::Notified => 11,
    }
}

pub fn call(value: &Call) -> u8 {
    match value {
        Call::Deliver(_) => 1,
        Call::Finish {
            id: _,
            ticket: _,
            result: _,
        } => 2,
    }
}

pub fn answer(value: &Answer) -> u8 {
    match value {
        Answer::Unknown(_) => 1,
        Answer::Work {
            request: _,
            ticket: _,
        } => 2,
        Answer::Cancelled {
            reply: _,
            ticket: _,
        } => 3,
        Answer::Nothing => 4,
        Answer::Note(_) => 5,
        Answer::Finished {
            reply: _,
            ticket: _,
        } => 6,
    }
}

pub fn dispatch_fault(value: &DispatchFault) -> &Message {
    match value {
        DispatchFault::Memory(back) => back,
        DispatchFault::Spent(back) => back,
    }
}
