// Values that are read by types of serde's own kinds and written again. A row is `plain TYPE: VALUE; VALUE; ..`.
use crate::said::{Said, Stepped};
use lsp_trees::from_value;
use serde::{Deserialize, DeserializeOwned, Deserializer, Format, Serialize};
use serde_json::{Error, Value, to_value};
use std::alloc::Global;
use std::collections::BTreeMap;

#[derive(Drop, Serialize, Deserialize)]
#[serde(deny_unknown_fields)]
struct Strict {
    a: u8,
    b: Option<u8>,
}

#[derive(Drop, Serialize, Deserialize)]
#[serde(untagged)]
enum Untagged {
    Number(u8),
    Text(String),
    Pair(u8, bool),
    Numbers(Vec<i64>),
    Strict(Strict),
    Lists(BTreeMap<String, Vec<u8>>),
}

#[derive(Drop, Serialize, Deserialize)]
#[serde(tag = "t")]
enum Tagged {
    A { n: u8 },
    B { n: String },
}

#[derive(Drop, Serialize, Deserialize)]
struct Inner {
    a: u8,
    b: Option<u8>,
}

#[derive(Drop, Serialize, Deserialize)]
struct Flat {
    z: u8,
    #[serde(flatten)]
    inner: Inner,
}

/// The first item of a list, whose others it leaves unread.
#[derive(Drop, Serialize)]
struct First(u8);

impl DeserializeOwned for First {
    fn deserialize_owned<F: Format>(
        alloc: Global,
        from: &mut Deserializer<'_, '_, F>,
    ) -> Result<First, F::Error> {
        from.begin_seq()?;
        from.expect_item()?;
        let item = u8::deserialize_owned(alloc, from)?;
        from.next_item()?;
        Ok(First(item))
    }
}

/// A number, or 0 for what is none.
#[derive(Drop, Serialize)]
struct OrZero(u64);

impl DeserializeOwned for OrZero {
    fn deserialize_owned<F: Format>(
        _alloc: Global,
        from: &mut Deserializer<'_, '_, F>,
    ) -> Result<OrZero, F::Error> {
        match from.u64() {
            Ok(number) => Ok(OrZero(number)),
            Err(error) if from.is_fatal(&error) => Err(error),
            Err(_) => Ok(OrZero(0)),
        }
    }
}

/// An object or a list, of which it takes the end for that of an object.
#[derive(Drop, Serialize)]
struct Empty;

impl DeserializeOwned for Empty {
    fn deserialize_owned<F: Format>(
        _alloc: Global,
        from: &mut Deserializer<'_, '_, F>,
    ) -> Result<Empty, F::Error> {
        from.begin_struct()?;
        match from.next_key(&[])? {
            Some(_) => Err(from.unknown_key()),
            None => Ok(Empty),
        }
    }
}

/// Says the value of a JSON text by a type, written again, or `refused`. It is read directly and by way of its text. If
/// the two differ, it says both.
fn back<T: Serialize + DeserializeOwned + Drop>(said: &mut Said, text: &str) {
    said.is_wrong = false;
    let straight = written(said, read_typed::<T>(said.alloc, text));
    let by_text = written(said, read_text::<T>(said.alloc, text));
    say_both(said, straight, by_text);
}

/// Returns the value that was read, written again, or why it was not.
fn written<T: Serialize + Drop>(said: &mut Said, read: Result<T, Error>) -> String {
    match read {
        Ok(value) => {
            let tree = to_value(said.alloc, &value);
            drop(value);
            match tree {
                Ok(tree) => text_of(said, tree),
                Err(error) => reason(said, error),
            }
        }
        Err(error) => reason(said, error),
    }
}

/// Says the value that was read directly and by way of its text: once, if the two are the same.
fn say_both(said: &mut Said, straight: String, by_text: String) {
    if straight != by_text {
        said.push(straight.as_str());
        said.push(", but by its text ");
        said.push(by_text.as_str());
    } else if said.is_wrong {
        said.push("refused");
    } else {
        said.push(straight.as_str());
    }
    said.is_wrong = false;
}

/// Reads the value of a JSON text by its type, by way of the text.
fn read_text<T: DeserializeOwned>(alloc: Global, text: &str) -> Result<T, Error> {
    match Value::from_str(alloc, text) {
        Ok(value) => serde_json::from_value(alloc, value),
        Err(error) => Err(error),
    }
}

/// The text of a tree.
fn text_of(said: &mut Said, tree: Value) -> String {
    let told = tree.to_string(said.alloc);
    drop(tree);
    said.made(told, String::new(said.alloc))
}

/// Why a value was not read or written.
fn reason(said: &mut Said, error: Error) -> String {
    let told = format!(in said.alloc; "{error}");
    said.refuse(error);
    said.made(told, String::new(said.alloc))
}

/// Reads the value of a JSON text by its type, directly.
fn read_typed<T: DeserializeOwned>(alloc: Global, text: &str) -> Result<T, Error> {
    match Value::from_str(alloc, text) {
        Ok(value) => from_value(alloc, value),
        Err(error) => Err(error),
    }
}

/// The name of a type.
#[derive(Drop)]
struct Named<'n> {
    name: &'n str,
}

impl Stepped for Named<'_> {
    fn step(&mut self, said: &mut Said, step: &str) {
        match self.name {
            "bool" => back::<bool>(said, step),
            "u8" => back::<u8>(said, step),
            "i64" => back::<i64>(said, step),
            "u64" => back::<u64>(said, step),
            "f64" => back::<f64>(said, step),
            "char" => back::<char>(said, step),
            "text" => back::<String>(said, step),
            "any" => back::<Value>(said, step),
            _ => composed(said, self.name, step),
        }
    }
}

fn composed(said: &mut Said, name: &str, step: &str) {
    match name {
        "option" => back::<Option<u8>>(said, step),
        "list" => back::<Vec<i64>>(said, step),
        "pair" => back::<(u8, bool)>(said, step),
        "lists" => back::<BTreeMap<String, Vec<u8>>>(said, step),
        "strict" => back::<Strict>(said, step),
        "untagged" => back::<Vec<Untagged>>(said, step),
        "tagged" => back::<Tagged>(said, step),
        "flat" => back::<Flat>(said, step),
        "first" => back::<First>(said, step),
        "or zero" => back::<OrZero>(said, step),
        "empty" => back::<Empty>(said, step),
        _ => said.unknown(),
    }
}

/// Says the results for a type's name and values: each written again, or `refused`.
pub fn answers(said: &mut Said, row: &str) {
    let (name, values) = said.cut(row, ": ");
    said.steps_on(values, Named { name });
}
