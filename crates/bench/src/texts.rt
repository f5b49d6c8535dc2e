//! How the time of an edit depends on its place in a text of a million bytes, and in a long line.
use lsp_text::{Position, PositionEncoding, Range, Text};
use std::alloc::{AllocError, Global};
use std::io;
use std::time::{Clock, Instant};

const LINES: u32 = 25_000;

/// How many keystrokes are made if no number is given, and no time is printed.
const FEW: u32 = 10;

const UTF16: PositionEncoding = PositionEncoding::Utf16;

/// A text that is typed over and over in a line, after a character and up to forty further ones.
struct Typing {
    /// Its name.
    what: &'static str,
    line: u32,
    behind: u32,
    new: &'static str,
}

/// In the large text: at its start, in its middle, at its end, and new lines in its middle.
static EDITS: [Typing; 4] = [
    Typing {
        what: "keystrokes at line 0",
        line: 0,
        behind: 0,
        new: "x",
    },
    Typing {
        what: "keystrokes at line 12500",
        line: 12_500,
        behind: 0,
        new: "x",
    },
    Typing {
        what: "keystrokes at line 25000",
        line: LINES,
        behind: 0,
        new: "x",
    },
    Typing {
        what: "new lines at line 12500",
        line: 12_500,
        behind: 0,
        new: "y\n",
    },
];

/// At the end of a long line.
static LONG: [Typing; 2] = [
    Typing {
        what: "keystrokes at the end of a line of 1000000 bytes",
        line: 0,
        behind: 1_000_000,
        new: "x",
    },
    Typing {
        what: "keystrokes at the end of a line of 10000000 bytes",
        line: 0,
        behind: 10_000_000,
        new: "x",
    },
];

/// Prints how long the text is after a few keystrokes at its start.
pub fn tell_length<R: Print>(rt: &R, alloc: Global) -> anyhow::Result<()> {
    let mut text = large(alloc)?;
    let edited = typed(alloc, &mut text, &EDITS[0], FEW);
    let bytes = text.as_str().len();
    drop(text);
    edited?;
    println!(rt; "{bytes} bytes")?;
    Ok(())
}

/// Makes `count` keystrokes each at the text's start, in its middle and at its end, and as many new lines in its
/// middle; requests the positions of as many offsets; types at as many carets; types a tenth as often at the end of a
/// long line, and requests as many places in it. It prints the microseconds of each.
pub fn time_all<R: Clock + Print>(rt: &R, alloc: Global, count: u32) -> io::Result<()> {
    time_large(rt, alloc, count)?;
    time_carets(rt, alloc, count)?;
    for typing in &LONG {
        time_long_line(rt, alloc, typing, count / 10)?;
    }
    Ok(())
}

fn time_large<R: Clock + Print>(rt: &R, alloc: Global, count: u32) -> io::Result<()> {
    let start = Instant::now(rt)?;
    let mut text = large(alloc)?;
    let timed = time_edits(rt, alloc, start, &mut text, count);
    drop(text);
    timed
}

/// Measures the edits of a text that was made at `start`.
fn time_edits<R: Clock + Print>(
    rt: &R,
    alloc: Global,
    start: Instant,
    text: &mut Text,
    count: u32,
) -> io::Result<()> {
    let took = start.elapsed(rt)?.as_micros();
    println!(rt; "made and indexed: {took} us")?;
    for typing in &EDITS {
        time_typing(rt, alloc, text, typing, count)?;
    }
    time_asking(rt, text, count, 100)
}

fn time_typing<R: Clock + Print>(
    rt: &R,
    alloc: Global,
    text: &mut Text,
    typing: &Typing,
    count: u32,
) -> io::Result<()> {
    let start = Instant::now(rt)?;
    typed(alloc, text, typing, count)?;
    tell_count(rt, start, count, typing.what)
}

/// Requests the positions of `count` offsets, `step` bytes apart, and the offset of each position.
fn time_asking<R: Clock + Print>(rt: &R, text: &Text, count: u32, step: u32) -> io::Result<()> {
    let start = Instant::now(rt)?;
    let sum = asked(text, count, step);
    let took = start.elapsed(rt)?.as_micros();
    println!(rt; "{count} positions of offsets and back: {took} us, sum {sum}")
}

/// Requests the positions of `count` offsets in one call.
fn time_in_order<R: Clock + Print>(
    rt: &R,
    alloc: Global,
    text: &Text,
    count: u32,
    step: u32,
) -> io::Result<()> {
    let mut offsets = Vec::new(alloc);
    for i in 0..count {
        offsets.push((i as usize).wrapping_mul(step as usize))?;
    }
    let start = Instant::now(rt)?;
    text.positions_at(alloc, offsets.as_slice(), UTF16)?;
    tell_count(rt, start, count, "positions of offsets, in order")
}

fn time_carets<R: Clock + Print>(rt: &R, alloc: Global, count: u32) -> io::Result<()> {
    let mut text = large(alloc)?;
    let timed = time_carets_in(rt, alloc, &mut text, count);
    drop(text);
    timed
}

fn time_carets_in<R: Clock + Print>(
    rt: &R,
    alloc: Global,
    text: &mut Text,
    count: u32,
) -> io::Result<()> {
    let start = Instant::now(rt)?;
    typed_at_carets(alloc, text, count)?;
    tell_count(rt, start, count, "carets, each two lines above the last")
}

fn time_long_line<R: Clock + Print>(
    rt: &R,
    alloc: Global,
    typing: &Typing,
    count: u32,
) -> io::Result<()> {
    let mut text = repeated(alloc, "x", typing.behind)?;
    let timed = time_line(rt, alloc, &mut text, typing, count);
    drop(text);
    timed
}

/// Types at the end of this line, and requests places all over it.
fn time_line<R: Clock + Print>(
    rt: &R,
    alloc: Global,
    text: &mut Text,
    typing: &Typing,
    count: u32,
) -> io::Result<()> {
    let step = typing.behind / count.max(1);
    time_typing(rt, alloc, text, typing, count)?;
    time_asking(rt, text, count, step)?;
    time_in_order(rt, alloc, text, count, step)
}

/// Prints the microseconds since `start` after a name.
fn tell_count<R: Clock + Print>(rt: &R, start: Instant, count: u32, what: &str) -> io::Result<()> {
    let took = start.elapsed(rt)?.as_micros();
    println!(rt; "{count} {what}: {took} us")
}

fn large(alloc: Global) -> Result<Text, AllocError> {
    repeated(alloc, "    let value = some_call(argument, 1);\n", LINES)
}

/// Makes a text that is this one `count` times.
fn repeated(alloc: Global, text: &str, count: u32) -> Result<Text, AllocError> {
    let text = text.repeat(alloc, count as usize)?;
    Text::new(alloc, text.as_str())
}

/// Types `count` times.
fn typed(alloc: Global, text: &mut Text, typing: &Typing, count: u32) -> Result<(), AllocError> {
    for i in 0..count {
        let character = typing.behind.saturating_add(i % 40);
        insert(alloc, text, typing.line, character, typing.new)?;
    }
    Ok(())
}

/// Types at `count` carets, from the last line up, as an editor sends them.
fn typed_at_carets(alloc: Global, text: &mut Text, count: u32) -> Result<(), AllocError> {
    for i in 0..count {
        let line = LINES.saturating_sub(i.saturating_mul(2));
        insert(alloc, text, line, 0, "x")?;
    }
    Ok(())
}

fn insert(
    alloc: Global,
    text: &mut Text,
    line: u32,
    character: u32,
    new: &str,
) -> Result<(), AllocError> {
    let start = Position { line, character };
    let range = Range { start, end: start };
    text.apply(alloc, Some(range), UTF16, new)?;
    Ok(())
}

/// Returns the sum of `count` offsets, each by way of its position.
fn asked(text: &Text, count: u32, step: u32) -> u64 {
    let mut sum: u64 = 0;
    for i in 0..count {
        let offset = (i as usize).wrapping_mul(step as usize);
        let place = text.position_at(offset, UTF16);
        sum = sum.wrapping_add(text.offset_at(place, UTF16) as u64);
    }
    sum
}
