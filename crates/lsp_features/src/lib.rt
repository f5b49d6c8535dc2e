//! A table of features: the methods that a server announces and answers. What `initialize` announces and what `request`
//! answers are made from the same table. So no method of it is announced without an answer, and none is answered
//! without being announced.
//!
//! A server implements `Answers` for each method, and `Offers` for each method that is announced with options. It names
//! the methods once, in a list that ends with `()`: `type Table = (HoverRequest, (DefinitionRequest, ()));`. Then
//! `announce::<Table, _>` makes the members of its capabilities, and `dispatch::<Table, _, _>` answers requests.
//! `dispatch_ref` answers a request whose params are read where they stand. If an `impl` is missing, none of the calls
//! compiles.
#![tactic(auto)]

mod configured;
mod feature;
mod plain;
mod table;

pub use feature::{Answers, Feature, HasOptions, Offers};
pub use table::{FeatureTable, announce, dispatch, dispatch_ref};
