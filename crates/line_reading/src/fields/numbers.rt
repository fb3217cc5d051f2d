//! Whole numbers.

ghost use Rattle.serde_json.specs.View.{view};
ghost use Rattle.line_reading.specs.Fields.{number_in};
ghost use Rattle.line_reading.specs.FieldsPrivate.{Gives};

use super::{Object, at_key};
use crate::fault::{Code, Fault, Key};
use crate::tries::Tries;
use serde_json::Value;
use spiffe_name::Failure;

/// Reads a value as a whole number of 64 bits.
#[tactic(auto, unfolding(crate::specs::Fields::number_in))]
pub(crate) fn number_in(value: &Value, key: Key) -> Result<u64, Failure<Fault>>
    ensures { Gives (λ n. n) result (number_in key (view value.now)) }
{
    value.as_u64().ok_or(at_key(Code::Field, key))
}

impl Object<'_> {
    ghost use Rattle.line_reading.specs.Fields.{number_at, optional_number_at, tries_at};
    ghost use Rattle.line_reading.specs.FieldsPrivate.{Gives, data_of};

    /// Reads the whole number at the key.
    #[tactic(auto, unfolding(crate::specs::Fields::number_at))]
    pub(crate) fn number_at(&self, key: Key) -> Result<u64, Failure<Fault>>
        ensures { Gives (λ n. n) result (number_at key (data_of self.now)) }
    {
        self.value_at(key)
            .and_then(Value::as_u64)
            .ok_or(at_key(Code::Field, key))
    }

    /// Reads the whole number at an optional key.
    #[tactic(auto, unfolding(crate::specs::Fields::optional_number_at))]
    pub(crate) fn optional_number_at(&self, key: Key) -> Result<Option<u64>, Failure<Fault>>
        ensures { Gives (λ n. n) result (optional_number_at key (data_of self.now)) }
    {
        let Some(value) = self.given_at(key) else {
            return Ok(None);
        };
        Ok(Some(number_in(value, key)?))
    }

    /// Reads how often a batch may be tried: 1 to 16 times, and once if the key is absent or null.
    #[tactic(auto, unfolding(crate::specs::Fields::tries_at))]
    pub(crate) fn tries_at(&self, key: Key) -> Result<Tries, Failure<Fault>>
        ensures { Gives (λ tries. tries) result (tries_at key (data_of self.now)) }
    {
        let count = self.optional_number_at(key)?.unwrap_or(1);
        Tries::of(count).ok_or(at_key(Code::Field, key))
    }
}
