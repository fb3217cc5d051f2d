//! Texts, and words of a fixed list.

ghost use Rattle.std.specs.Prelude.{◌≡◌};
ghost use Rattle.serde_json.specs.View.{view};
ghost use Rattle.line_reading.specs.Fields.{match_in, match_of, mode_in, mode_of, text_in};
ghost use Rattle.line_reading.specs.FieldsPrivate.{Gives};

use super::{Object, at_key};
use crate::fault::{Code, Fault, Key};
use entry_book::{DropMode, MatchMode, Text};
use serde_json::Value;
use spiffe_name::Failure;
use std::alloc::Global;

/// Reads a value as a text.
#[tactic(auto, unfolding(crate::specs::Fields::text_in))]
pub(super) fn text_in(value: &Value, key: Key) -> Result<&str, Failure<Fault>>
    ensures { Gives (λ s. s.now) result (text_in key (view value.now)) }
{
    value.as_str().ok_or(at_key(Code::Field, key))
}

/// Returns the drop mode with this name.
fn mode_of(word: &str) -> Option<DropMode>
    ensures { result ≡ mode_of word.now }
{
    match word {
        "restrict" => Some(DropMode::Restrict),
        "delete" => Some(DropMode::Delete),
        "dissociate" => Some(DropMode::Dissociate),
        _ => None,
    }
}

/// Reads a value as a drop mode.
#[tactic(auto, unfolding(crate::specs::Fields::mode_in))]
fn mode_in(value: &Value, key: Key) -> Result<DropMode, Failure<Fault>>
    ensures { Gives (λ mode. mode) result (mode_in key (view value.now)) }
{
    value
        .as_str()
        .and_then(mode_of)
        .ok_or(at_key(Code::Field, key))
}

/// Returns the match mode with this name.
fn match_of(word: &str) -> Option<MatchMode>
    ensures { result ≡ match_of word.now }
{
    match word {
        "exact" => Some(MatchMode::Exact),
        "any" => Some(MatchMode::Any),
        "superset" => Some(MatchMode::Superset),
        "subset" => Some(MatchMode::Subset),
        _ => None,
    }
}

/// Reads a value as a match mode.
#[tactic(auto, unfolding(crate::specs::Fields::match_in))]
fn match_in(value: &Value, key: Key) -> Result<MatchMode, Failure<Fault>>
    ensures { Gives (λ mode. mode) result (match_in key (view value.now)) }
{
    value
        .as_str()
        .and_then(match_of)
        .ok_or(at_key(Code::Field, key))
}

impl Object<'_> {
    ghost use Rattle.line_reading.specs.Fields.{optional_match_at, optional_mode_at, optional_text_at, text_at};
    ghost use Rattle.line_reading.specs.FieldsPrivate.{Gives, data_of};

    /// Reads the text at the key.
    #[tactic(auto, unfolding(crate::specs::Fields::text_at))]
    pub(crate) fn text_at(&self, key: Key) -> Result<&str, Failure<Fault>>
        ensures { Gives (λ s. s.now) result (text_at key (data_of self.now)) }
    {
        self.value_at(key)
            .and_then(Value::as_str)
            .ok_or(at_key(Code::Field, key))
    }

    /// Reads the text at an optional key.
    #[tactic(auto, unfolding(crate::specs::Fields::optional_text_at))]
    pub(crate) fn optional_text_at(
        &self,
        alloc: Global,
        key: Key,
    ) -> Result<Option<Text>, Failure<Fault>>
        ensures { Gives (λ text. text) result (optional_text_at key (data_of self.now)) }
    {
        let Some(value) = self.given_at(key) else {
            return Ok(None);
        };
        let text = text_in(value, key)?;
        Ok(Some(Text::of(String::from_str(alloc, text)?)))
    }

    /// Reads the drop mode at an optional key.
    #[tactic(auto, unfolding(crate::specs::Fields::optional_mode_at))]
    pub(crate) fn optional_mode_at(&self, key: Key) -> Result<Option<DropMode>, Failure<Fault>>
        ensures { Gives (λ mode. mode) result (optional_mode_at key (data_of self.now)) }
    {
        let Some(value) = self.given_at(key) else {
            return Ok(None);
        };
        Ok(Some(mode_in(value, key)?))
    }

    /// Reads the match mode at an optional key.
    #[tactic(auto, unfolding(crate::specs::Fields::optional_match_at))]
    pub(crate) fn optional_match_at(&self, key: Key) -> Result<Option<MatchMode>, Failure<Fault>>
        ensures { Gives (λ mode. mode) result (optional_match_at key (data_of self.now)) }
    {
        let Some(value) = self.given_at(key) else {
            return Ok(None);
        };
        Ok(Some(match_in(value, key)?))
    }
}
