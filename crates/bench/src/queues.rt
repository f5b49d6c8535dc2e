//! How the time of a call on the request queues grows with the number of pending requests.
use anyhow::Result;
use lsp_server::{Outgoing, ReqQueue, RequestId};
use serde_json::Value;
use std::alloc::Global;
use std::io;
use std::io::ErrorKind;
use std::time::{Clock, Instant};

/// How many requests are registered and completed if no number is given, and no time is printed.
const FEW: u32 = 1000;

/// Prints how many of a thousand requests were returned.
pub fn tell_found<R: Print>(rt: &R, alloc: Global) -> Result<()> {
    let mut queue: ReqQueue<u64, u64> = ReqQueue::default(alloc);
    let registered = register_all(alloc, &mut queue.outgoing, FEW);
    let found = complete_all(&mut queue.outgoing, FEW);
    drop(queue);
    registered?;
    println!(rt; "{FEW} registered, {found} given back")?;
    Ok(())
}

/// Registers and completes this many requests, and prints the nanoseconds of a call.
pub fn time_calls<R: Clock + Print>(rt: &R, alloc: Global, count: u32) -> io::Result<()> {
    let mut queue: ReqQueue<u64, u64> = ReqQueue::default(alloc);
    let timed = time_queue(rt, alloc, &mut queue.outgoing, count);
    drop(queue);
    timed
}

fn time_queue<R: Clock + Print>(
    rt: &R,
    alloc: Global,
    queue: &mut Outgoing<u64>,
    count: u32,
) -> io::Result<()> {
    let start = Instant::now(rt)?;
    register_all(alloc, queue, count)?;
    let each = per_call(rt, start, count)?;
    let start = Instant::now(rt)?;
    let found = complete_all(queue, count);
    let last = per_call(rt, start, count)?;
    println!(rt; "{count} pending: register {each} ns, complete {last} ns, {found} given back")
}

/// Registers this many requests. The data of each is its number.
fn register_all(alloc: Global, queue: &mut Outgoing<u64>, count: u32) -> io::Result<()> {
    for number in 0..count {
        let registered = queue.register_value(String::new(alloc), Value::Null, u64::from(number));
        let is_refused = registered.is_err();
        drop(registered);
        if is_refused {
            return Err(io::Error::from(ErrorKind::OutOfMemory));
        }
    }
    Ok(())
}

/// Completes this many requests in a mixed order, and counts those that returned their own number.
fn complete_all(queue: &mut Outgoing<u64>, count: u32) -> u32 {
    let mut found = 0u32;
    let mut number = 0u64;
    for _ in 0..count {
        number = number.wrapping_add(7919) % u64::from(count.max(1));
        let id = RequestId::from(i32::try_from(number).unwrap_or(0));
        if queue.complete(id) == Some(number) {
            found = found.saturating_add(1);
        }
    }
    found
}

/// Returns the nanoseconds of a call, if this many were made since `start`.
fn per_call<R: Clock>(rt: &R, start: Instant, count: u32) -> io::Result<u128> {
    Ok(start.elapsed(rt)?.as_nanos() / u128::from(count.max(1)))
}
