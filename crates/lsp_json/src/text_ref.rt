//! A JSON value that stands in a text.

ghost use Rattle.std.specs.Prelude.{IfSome, MatchOption, None, OnSome, Some, is_some, length, option_map, ◌<◌, ◌≡◌};
ghost use Rattle.std.specs.Prelude.{◌≤◌};
ghost use Rattle.serde_json.specs.Data.{Members as MembersData, item, no_items, no_members, object, put};
ghost use Rattle.serde_json.specs.Find.{as_array, as_bool, as_null, as_number, as_object, as_str, get};
ghost use Rattle.serde_json.specs.View.{number_view};
ghost use Rattle.lsp_json.specs.Text.{Stands, StandsItems, StandsMembers, text_data, text_depth, text_items};
ghost use Rattle.lsp_json.specs.Text.{text_items_depth, text_members, text_members_depth};

use crate::numbers::number;
use json::{Element, Items, Members, Tape};
use serde_json::Number;

/// The items that are left of a list in a text.
#[derive(Drop)]
pub(crate) struct TextItems<'a> {
    items: Items<'a, 'a>,
    ghost stands: { StandsItems items },
}

impl<'a> TextItems<'a> {
    /// Returns the next item, or `None` if none is left.
    pub(crate) fn next(&mut self) -> Option<TextRef<'a>>
        ensures value { MatchOption result
            ((text_items self.old.items ≡ no_items) × (text_items self.new.items ≡ no_items))
            (λ text. text_items self.old.items ≡ item (text_data text.element) (text_items self.new.items)) }
        ensures deep { IfSome result (λ text. text_depth text.element ≤ text_items_depth self.old.items) }
        ensures deep_later { text_items_depth self.new.items ≤ text_items_depth self.old.items }
        ensures shorter { OnSome result (length self.new.items < length self.old.items) }
    {
        let element = self.items.next()?;
        Some(TextRef { element })
    }
}

/// The members that are left of an object in a text.
#[derive(Drop)]
pub(crate) struct TextMembers<'a> {
    members: Members<'a, 'a>,
    ghost stands: { StandsMembers members },
}

impl<'a> TextMembers<'a> {
    /// Returns the key and the value of the next member, or `None` if none is left.
    pub(crate) fn next(&mut self) -> Option<(&'a str, TextRef<'a>)>
        ensures value { MatchOption result
            ((found : MembersData) → text_members self.old.members found ≡ Some found)
            (λ member. (found : MembersData) → text_members self.old.members found
            ≡ text_members self.new.members (put member.0.now (text_data member.1.element) found)) }
        ensures deep { IfSome result (λ member. text_depth member.1.element ≤ text_members_depth self.old.members) }
        ensures deep_later { text_members_depth self.new.members ≤ text_members_depth self.old.members }
        ensures shorter { OnSome result (length self.new.members < length self.old.members) }
    {
        match self.members.next() {
            Some((key, element)) => Some((key, TextRef { element })),
            None => None,
        }
    }
}

/// A JSON value in a text.
#[derive(Drop)]
pub(crate) struct TextRef<'a> {
    element: Element<'a, 'a>,
    ghost stands: { Stands element },
}

impl<'a> TextRef<'a> {
    /// Refers to the value that a whole tape is.
    pub(crate) fn of_tape(tape: &'a Tape<'a>) -> TextRef<'a>
        requires { Stands tape.now }
        ensures { text_data result.element ≡ text_data tape.now }
    {
        TextRef {
            element: tape.root(),
        }
    }

    /// Returns whether this is null.
    pub(crate) fn is_null(&self) -> bool
        ensures { result ≡ is_some (as_null (text_data self.now.element)) }
    {
        self.element.is_null()
    }

    /// Returns whether this is an object.
    pub(crate) fn is_object(&self) -> bool
        ensures { result ≡ is_some (as_object (text_data self.now.element)) }
    {
        self.element.members().is_some()
    }

    /// Returns the boolean that this is, if it is one.
    pub(crate) fn as_bool(&self) -> Option<bool>
        ensures { result ≡ as_bool (text_data self.now.element) }
    {
        self.element.as_bool()
    }

    /// Returns the text that this is, if it is one.
    pub(crate) fn as_str(&self) -> Option<&'a str>
        ensures { option_map (λ text. text.now) result ≡ as_str (text_data self.now.element) }
    {
        self.element.as_str()
    }

    /// Returns the number that this is, if it is one.
    pub(crate) fn as_number(&self) -> Option<Number>
        ensures { option_map number_view result ≡ as_number (text_data self.now.element) }
    {
        number(self.element.as_number()?)
    }

    /// Returns the last member with this key, if this is an object that has one.
    pub(crate) fn get(&self, key: &str) -> Option<TextRef<'a>>
        ensures { option_map (λ text. text_data text.element) result ≡ get key.now (text_data self.now.element) }
    {
        let element = self.element.get(key)?;
        Some(TextRef { element })
    }

    /// Returns the items of the list that this is, if it is one.
    pub(crate) fn items(&self) -> Option<TextItems<'a>>
        ensures value { option_map (λ text. text_items text.items) result ≡ as_array (text_data self.now.element) }
        ensures deep { IfSome result (λ text. text_items_depth text.items < text_depth self.now.element) }
    {
        let items = self.element.items()?;
        Some(TextItems { items })
    }

    /// Returns the members of the object that this is, if it is one.
    pub(crate) fn members(&self) -> Option<TextMembers<'a>>
        ensures value { MatchOption result (None ≡ as_object (text_data self.now.element))
            (λ text. (all : MembersData) × (text_members text.members no_members ≡ Some all)
            × (object all ≡ text_data self.now.element)) }
        ensures deep { IfSome result (λ text. text_members_depth text.members < text_depth self.now.element) }
    {
        let members = self.element.members()?;
        Some(TextMembers { members })
    }
}
