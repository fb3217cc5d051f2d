//! Which values does an object have at its keys?
//!
//! There is a reader for each kind of key. Each returns the value or the first fault, as the definition of the same name
//! says. Readers with names in `_in` read a value for a key; the methods in `_at` read the value at the key.

ghost use Rattle.std.specs.Prelude.{◌≡◌, IfOk, MatchOption, None, Some};
ghost use Rattle.serde_json.specs.Find.{as_object};
ghost use Rattle.serde_json.specs.View.{view};
ghost use Rattle.spiffe_name.specs.declared.refusals.Failure.TheVariants.{Refused};
ghost use Rattle.line_reading.specs.Fields.{HasNoOther, IsLeastOther, is_known_key, required};
ghost use Rattle.line_reading.specs.FieldsPrivate.{Gives, data_of, members_of};

mod lists;
mod names;
mod numbers;
mod texts;

use crate::fault::{Code, Fault, Field, Key};
use entry_book::Text;
pub(crate) use numbers::number_in;
use serde_json::{Map, Value};
use spiffe_name::Failure;

/// An object, with its members.
#[derive(Drop)]
pub(crate) struct Object<'a> {
    pub(super) value: &'a Value,
    pub(super) members: &'a Map<String, Value>,
}

/// Returns a fault of the line as a whole.
pub(crate) fn at_line(code: Code) -> Fault
    ensures { result ≡ record { code = code; field = None; op = None } }
{
    Fault {
        code,
        field: None,
        op: None,
    }
}

/// Returns a fault at a key.
pub(crate) fn at_key(code: Code, key: Key) -> Failure<Fault>
    ensures { result ≡ Refused (record { code = code; field = Some (Field.Known key); op = None }) }
{
    Failure::Refused(Fault {
        code,
        field: Some(Field::Known(key)),
        op: None,
    })
}

/// Returns the value as an object, if it is one.
pub(crate) fn object_of(value: &Value) -> Option<Object<'_>>
    ensures { MatchOption result (as_object (view value.now) ≡ None)
        (λ object. (data_of object ≡ view value.now) × (as_object (view value.now) ≡ Some (members_of object))) }
{
    match value.as_object() {
        Some(members) => Some(Object { value, members }),
        None => None,
    }
}

/// Reads a value as an object.
pub(crate) fn object_in(value: &Value, key: Key) -> Result<Object<'_>, Failure<Fault>>
    ensures members { Gives members_of result (required key (as_object (view value.now))) }
    ensures value { IfOk result (λ object. data_of object ≡ view value.now) }
{
    object_of(value).ok_or(at_key(Code::Field, key))
}

/// Returns true if one of the keys has this name.
fn is_known_key(keys: &[Key], name: &str) -> bool
    ensures { result ≡ is_known_key keys.now name.now }
{
    keys.iter().any(|key| key.name() == name)
}

impl Object<'_> {
    ghost use Rattle.std.specs.Prelude.{◌≡◌, option_map};
    ghost use Rattle.serde_json.specs.Find.{get};
    ghost use Rattle.serde_json.specs.View.{view};
    ghost use Rattle.line_reading.specs.Codes.{key_name};
    ghost use Rattle.line_reading.specs.Fields.{given_at, no_others, required};
    ghost use Rattle.line_reading.specs.FieldsPrivate.{Gives, data_of, members_of};

    /// Returns the value at a key.
    pub(crate) fn value_at(&self, key: Key) -> Option<&Value>
        ensures { option_map (λ v. view v.now) result ≡ get (key_name key) (data_of self.now) }
    {
        self.value.get(key.name())
    }

    /// Returns the value at an optional key; null counts as absent.
    fn given_at(&self, key: Key) -> Option<&Value>
        ensures { option_map (λ v. view v.now) result ≡ given_at key (data_of self.now) }
    {
        let value = self.value_at(key)?;
        if value.is_null() {
            return None;
        }
        Some(value)
    }

    /// Returns the value at a key. The error is a fault at the key, if there is none.
    pub(crate) fn required_at(&self, key: Key) -> Result<&Value, Failure<Fault>>
        ensures { Gives (λ v. view v.now) result (required key (get (key_name key) (data_of self.now))) }
    {
        self.value_at(key).ok_or(at_key(Code::Field, key))
    }

    /// Refuses an object with keys other than these. The fault names the least other key, in the order of bytes: since the
    /// map has its keys in that order, it is the first.
    pub(crate) fn no_others(&self, keys: &[Key]) -> Result<(), Failure<Fault>>
        ensures { Gives (λ _. tt) result (no_others keys.now (members_of self.now)) }
    {
        for (name, _) in self.members {
            if !is_known_key(keys, name) {
                return Err(Failure::Refused(Fault {
                    code: Code::Field,
                    field: Some(Field::Unknown(Text::of(name.clone()?))),
                    op: None,
                }));
            }
        }
        Ok(())
    }
}

/// The unknown key that a fault names is the least that the object has, in the order of bytes; without such a fault, the
/// object has no unknown key. This function does nothing at run time: its contract is the theorem.
pub fn unknown_keys_law()
    ensures least { IsLeastOther }
    ensures none { HasNoOther }
{}
