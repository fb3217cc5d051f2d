//! Keys and values like those of a version of a book. A clone equals its original, as `with` and `without` require.

ghost use Rattle.std.specs.Prelude.{Some, bytes_eq, refl, ◌≡◌, IfOk};
ghost use Rattle.std.specs.Cmp.{partial_equiv_from_equiv};
ghost use Rattle.std.specs.Cmp.Lexicographic.{nat_list_cmp_total, nat_list_eq_equiv, slice_cmp, texts_po, texts_ties};
ghost use Rattle.std.specs.Ordering.{nat_cmp};

use crate::scripts::AsText;
use std::alloc::{AllocError, Global};
use std::cmp::Ordering;
use std::marker::Model;
use std::sync::Arc;
use std::test::Fail;

/// The text of an ID. Its model in contracts is its bytes.
#[derive(Drop)]
pub struct IdText {
    text: String,
}

impl Model for IdText {
    ghost use Rattle.std.specs.String.{string_bytes};
    ghost use Rattle.std.specs.Prelude.{List, ℕ};

    ghost Value = { List ℕ };

    ghost view = { λ id. string_bytes id.text };
}

impl IdText {
    pub fn of(alloc: Global, text: &str) -> Result<IdText, AllocError>
        ensures { IfOk result (λ id. id ≡ text.now) }
    {
        Ok(IdText {
            text: String::from_str(alloc, text)?,
        })
    }

    pub fn as_str(&self) -> &str
        ensures { result.now ≡ self.now }
    {
        self.text.as_str()
    }
}

impl Clone for IdText {
    ghost is_clone = { λ original copy. copy ≡ original };

    fn clone(&self) -> Result<IdText, AllocError> {
        Ok(IdText {
            text: self.text.clone()?,
        })
    }
}

impl PartialEq for IdText {
    ghost eq = { bytes_eq };

    ghost laws = { partial_equiv_from_equiv nat_list_eq_equiv };

    fn eq(&self, other: &IdText) -> bool {
        self.as_str() == other.as_str()
    }
}

impl Eq for IdText {
    ghost laws = { nat_list_eq_equiv };
}

impl PartialOrd for IdText {
    ghost partial_cmp = { λ a b. Some (slice_cmp nat_cmp a b) };

    ghost laws = { texts_po };

    fn partial_cmp(&self, other: &IdText) -> Option<Ordering> {
        Some(self.cmp(other))
    }
}

impl Ord for IdText {
    ghost cmp = { slice_cmp nat_cmp };

    ghost total = { nat_list_cmp_total };

    ghost matches_partial_cmp = { λ a b. refl };

    ghost matches_eq = { texts_ties };

    fn cmp(&self, other: &IdText) -> Ordering {
        self.as_str().cmp(other.as_str())
    }
}

/// A part of a key: a value, or the point before all values or after all values.
#[derive(Clone, Drop, PartialEq, Eq, PartialOrd, Ord)]
pub enum Part<T> {
    Start,
    At(T),
    End,
}

/// A value that several versions share. Its model in contracts is the value.
#[derive(Drop)]
pub struct SharedNumber {
    value: Arc<u64>,
}

impl Model for SharedNumber {
    ghost use Rattle.std.specs.Prelude.{ℕ};
    ghost use Rattle.std.specs.Arc.{arc_value};

    ghost Value = { ℕ };

    ghost view = { λ shared. arc_value shared.value };
}

impl SharedNumber {
    pub fn of(alloc: Global, value: u64) -> Result<SharedNumber, AllocError>
        ensures { IfOk result (λ shared. shared ≡ value) }
    {
        Ok(SharedNumber {
            value: Arc::new(alloc, value)?,
        })
    }

    pub fn number(&self) -> u64
        ensures { result ≡ self.now }
    {
        *self.value
    }
}

impl Clone for SharedNumber {
    ghost is_clone = { λ original copy. copy ≡ original };

    fn clone(&self) -> Result<SharedNumber, AllocError> {
        Ok(SharedNumber {
            value: self.value.clone()?,
        })
    }
}

impl AsText for u128 {
    fn of_text(_alloc: Global, text: &str) -> Result<u128, Fail> {
        Ok(u128::from(text.parse::<u64>()?))
    }

    fn text(&self, alloc: Global) -> Result<String, Fail> {
        Ok(format!(in alloc; "{self}")?)
    }
}

impl AsText for IdText {
    fn of_text(alloc: Global, text: &str) -> Result<IdText, Fail> {
        Ok(IdText::of(alloc, text)?)
    }

    fn text(&self, alloc: Global) -> Result<String, Fail> {
        Ok(String::from_str(alloc, self.as_str())?)
    }
}

impl<T: AsText> AsText for Part<T> {
    fn of_text(alloc: Global, text: &str) -> Result<Part<T>, Fail> {
        match text {
            "START" => Ok(Part::Start),
            "END" => Ok(Part::End),
            _ => Ok(Part::At(T::of_text(alloc, text)?)),
        }
    }

    fn text(&self, alloc: Global) -> Result<String, Fail> {
        match self {
            Part::Start => Ok(String::from_str(alloc, "START")?),
            Part::At(value) => value.text(alloc),
            Part::End => Ok(String::from_str(alloc, "END")?),
        }
    }
}

impl AsText for SharedNumber {
    fn of_text(alloc: Global, text: &str) -> Result<SharedNumber, Fail> {
        Ok(SharedNumber::of(alloc, text.parse::<u64>()?)?)
    }

    fn text(&self, alloc: Global) -> Result<String, Fail> {
        self.number().text(alloc)
    }
}

/// Parses and prints the parts of a key, with slashes between them.
impl AsText for (IdText, Part<IdText>, Part<u128>) {
    fn of_text(alloc: Global, text: &str) -> Result<(IdText, Part<IdText>, Part<u128>), Fail> {
        let (parent, member) = text.split_once('/').unwrap_or((text, ""));
        let (identity, number) = member.split_once('/').unwrap_or((member, ""));
        let number = Part::<u128>::of_text(alloc, number)?;
        let parent = IdText::of(alloc, parent)?;
        Ok((parent, Part::<IdText>::of_text(alloc, identity)?, number))
    }

    fn text(&self, alloc: Global) -> Result<String, Fail> {
        let identity = self.1.text(alloc)?;
        let number = self.2.text(alloc)?;
        Ok(format!(in alloc; "{}/{identity}/{number}", self.0.as_str())?)
    }
}
