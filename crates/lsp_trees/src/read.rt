// From a value to a type.
use crate::depth::nests_within;
use crate::reader::{Stop, TreeReader};
use serde::{DeserializeOwned, Deserializer};
use serde_json::{Error, Value};
use std::alloc::{AllocError, Global};

/// The deepest nesting of a text that `serde_json` reads.
const MAX_DEPTH: u32 = 127;

/// Reads a value as a type of your own, as `serde_json::from_value` does, with the same errors. A value that does not
/// fit, or that is read by a step which needs its text, is written out and read again. No contract says what the type
/// takes from it, so test it.
pub fn from_value<T: DeserializeOwned>(alloc: Global, value: Value) -> Result<T, Error> {
    match straight(alloc, &value) {
        Ok(read) => Ok(read),
        Err(Stop::Memory) => Err(Error::from(AllocError)),
        Err(Stop::Misfit | Stop::Other) => serde_json::from_value(alloc, value),
    }
}

/// Reads a value without its text.
fn straight<T: DeserializeOwned>(alloc: Global, value: &Value) -> Result<T, Stop> {
    if !nests_within(value, MAX_DEPTH) {
        return Err(Stop::Other);
    }
    let mut reader = TreeReader::new(alloc, value);
    let read = read_by(alloc, &mut reader);
    reader.settled(read)
}

fn read_by<T: DeserializeOwned>(alloc: Global, reader: &mut TreeReader<'_>) -> Result<T, Stop> {
    T::deserialize_owned(alloc, &mut Deserializer::new(&[], reader))
}
