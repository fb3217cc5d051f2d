//! On which versions does a batch begin, and what does it do first?

ghost use Rattle.std.specs.Prelude.{◌≡◌, ◌≤◌, ◌^◌, [], IfOk, IfSome};
ghost use Rattle.std.specs.Option.{option_copied};
ghost use Rattle.batch_work.specs.WorkInvariants.{IsStartOf, IsReadableVersion, StageInvariant, base_of};

use crate::phase::Phase;
use crate::stage::{Begun, Stage};
use crate::take::settle;
use crate::versions::Versions;
use entry_book::{Batch, Refusal, ReplyOutcome, both};
use std::alloc::AllocError;
use version_book::Version;

/// Returns a clone of the version of the earlier book that a batch asks for, if it asks for one and that is there. The error is a
/// reference count at its maximum.
fn earlier_clone(
    batch: &Batch,
    newest: &Version,
    earlier: Option<&Version>,
) -> Result<Option<Version>, AllocError>
    requires fits { (batch.now.domain ≡ newest.now.domain) × (newest.now.number ≤ 2 ^ 48) }
    requires earlier { IfSome earlier (λ version. (version.now.domain ≡ newest.now.domain) × (version.now.number ≤ newest.now.number)) }
    ensures found { IfOk result (λ clone. clone ≡ option_copied earlier.entry) }
    ensures readable { IfOk result (λ clone. IfSome clone (IsReadableVersion batch.now.domain)) }
{
    let Some(version) = earlier else {
        return Ok(None);
    };
    // its contract says that the version's book is lawful
    let _ = version.number();
    Ok(Some(version.clone()?))
}

/// Returns clones of the versions on which a batch begins, with the server's ID. The error is a reference count at its maximum.
pub(crate) fn begin_on(
    batch: &Batch,
    newest: &Version,
    earlier: Option<&Version>,
) -> Result<Begun, AllocError>
    requires fits { (batch.now.domain ≡ newest.now.domain) × (newest.now.number ≤ 2 ^ 48) }
    requires earlier { IfSome earlier (λ version. (version.now.domain ≡ newest.now.domain) × (version.now.number ≤ newest.now.number)) }
    ensures base { IfOk result (λ begun. base_of begun ≡ record { newest = newest.now; earlier = option_copied earlier.entry }) }
    ensures began { IfOk result (IsStartOf batch.now) }
{
    // these contracts say that the version's book is lawful, and that the batch was made for its trust domain
    let _ = newest.number();
    let _ = batch.domain();
    let names = both(newest.server().clone(), newest.clone());
    let ((server, newest), earlier) = both(names, earlier_clone(batch, newest, earlier))?;
    Ok(Begun {
        newest,
        earlier,
        server,
    })
}

/// Returns the first stage of a batch that begins on these versions.
pub(crate) fn first_stage(batch: &Batch, begun: &Begun) -> Stage
    requires began { IsStartOf batch.now begun.now }
    ensures { StageInvariant result batch.now (base_of begun.now) [] [] [] }
{
    let versions = Versions::begun(begun);
    match versions.version_for(batch) {
        Ok(_) => match batch.token() {
            Some(token) => Stage::Token(token),
            None => Stage::At(0, Phase::First),
        },
        Err(Refusal::NotYet) => {
            let place = begun.newest.number();
            settle(place, ReplyOutcome::Refused(Refusal::NotYet))
        }
        Err(_) => Stage::Gone,
    }
}
