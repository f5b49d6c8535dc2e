// Objects of JSON with two members.
use serde::{Deserialize, Deserializer, Format, Kind, Name, Serialize, Serializer};
use std::alloc::Global;

/// Writes a member.
pub fn put<T: Serialize, S: Serializer>(
    name: &str,
    value: &T,
    out: &mut S,
) -> Result<(), S::Error> {
    out.key(name)?;
    value.serialize(out)
}

/// Reads two members of an object. Other members are ignored.
pub fn members_in<'de, A: Deserialize<'de>, B: Deserialize<'de>, F: Format>(
    alloc: Global,
    first: &str,
    second: &str,
    from: &mut Deserializer<'de, '_, F>,
) -> Result<(Option<A>, Option<B>), F::Error> {
    let names = [Name::exact(first), Name::exact(second)];
    let mut a = None;
    let mut b = None;
    from.begin_map()?;
    for _ in 0..u64::MAX {
        match from.next_key(&names)? {
            Some(0) => fill(alloc, &mut a, first, from)?,
            Some(1) => fill(alloc, &mut b, second, from)?,
            Some(_) => from.skip()?,
            None => break,
        }
    }
    Ok((a, b))
}

/// Reads the value of a member, which has to be its first.
fn fill<'de, T: Deserialize<'de>, F: Format>(
    alloc: Global,
    slot: &mut Option<T>,
    name: &str,
    from: &mut Deserializer<'de, '_, F>,
) -> Result<(), F::Error> {
    if slot.is_some() {
        return Err(from.duplicate(name));
    }
    *slot = Some(value_of(alloc, name, from)?);
    Ok(())
}

/// Reads the value of a member. If it is no object and no list, and does not fit, the error names the member.
fn value_of<'de, T: Deserialize<'de>, F: Format>(
    alloc: Global,
    name: &str,
    from: &mut Deserializer<'de, '_, F>,
) -> Result<T, F::Error> {
    let kind = from.peek()?;
    match T::deserialize(alloc, from) {
        Ok(value) => Ok(value),
        Err(error) => {
            if matches!(kind, Kind::Map | Kind::Seq) || from.is_fatal(&error) {
                return Err(error);
            }
            Err(misfit(alloc, name, from))
        }
    }
}

/// Makes the error for a member that does not fit. Its text has at most 32 bytes.
pub fn misfit<F: Format>(alloc: Global, name: &str, from: &Deserializer<'_, '_, F>) -> F::Error {
    match format!(in alloc; "invalid `{name}`") {
        Ok(reason) => from.custom(reason.as_str()),
        Err(_) => from.no_memory(),
    }
}

/// Returns a member that is required, or an error if it is missing.
pub fn needed<T: Drop, F: Format>(
    slot: Option<T>,
    name: &str,
    from: &Deserializer<'_, '_, F>,
) -> Result<T, F::Error> {
    match slot {
        Some(value) => Ok(value),
        None => Err(from.missing(name)),
    }
}
