//! Operations on bundles.

ghost use Rattle.line_reading.specs.FieldsPrivate.{Gives, data_of, members_of};
ghost use Rattle.line_reading.specs.Operations.{drop_bundle_in, set_bundle_in, show_bundle_in};

use crate::fault::{Fault, Key};
use crate::fields::Object;
use entry_book::{DropMode, Op, Shared, Text};
use spiffe_name::Failure;
use std::alloc::Global;

const SHOW_BUNDLE: [Key; 2] = [Key::Op, Key::Domain];

const SET_BUNDLE: [Key; 3] = [Key::Op, Key::Domain, Key::Text];

const DROP_BUNDLE: [Key; 3] = [Key::Op, Key::Domain, Key::Mode];

/// Reads a query for a bundle. The error is the first fault at a key, or out of memory.
#[tactic(auto, unfolding(crate::specs::Operations::show_bundle_in))]
pub(super) fn show_bundle_in(alloc: Global, object: &Object<'_>) -> Result<Op, Failure<Fault>>
    ensures { Gives (λ op. op) result (show_bundle_in (data_of object.now) (members_of object.now)) }
{
    let domain = object.domain_at(alloc, Key::Domain)?;
    object.no_others(&SHOW_BUNDLE)?;
    Ok(Op::ShowBundle(Shared::of(alloc, domain)?))
}

/// Reads the set of a bundle with its text. The error is the first fault at a key, or out of memory.
#[tactic(auto, unfolding(crate::specs::Operations::set_bundle_in))]
pub(super) fn set_bundle_in(alloc: Global, object: &Object<'_>) -> Result<Op, Failure<Fault>>
    ensures { Gives (λ op. op) result (set_bundle_in (data_of object.now) (members_of object.now)) }
{
    let domain = object.domain_at(alloc, Key::Domain)?;
    let text = object.text_at(Key::Text)?;
    object.no_others(&SET_BUNDLE)?;
    let text = Text::of(String::from_str(alloc, text)?);
    Ok(Op::SetBundle(Shared::of(alloc, domain)?, Shared::of(alloc, text)?))
}

/// Reads a drop of a bundle. The mode is `restrict` by default, which refuses to drop a bundle that entries name.
#[tactic(auto, unfolding(crate::specs::Operations::drop_bundle_in))]
pub(super) fn drop_bundle_in(alloc: Global, object: &Object<'_>) -> Result<Op, Failure<Fault>>
    ensures { Gives (λ op. op) result (drop_bundle_in (data_of object.now) (members_of object.now)) }
{
    let domain = object.domain_at(alloc, Key::Domain)?;
    let mode = object.optional_mode_at(Key::Mode)?;
    object.no_others(&DROP_BUNDLE)?;
    Ok(Op::DropBundle(
        Shared::of(alloc, domain)?,
        mode.unwrap_or(DropMode::Restrict),
    ))
}
