//! How does a function combine two values, each of which may have failed for lack of memory?
//!
//! Structs whose parts are allocated separately are made this way. If one part failed, the other one is dropped here, where the
//! prover knows little. Elsewhere it would have to show for each part that it may be dropped, among many more facts.

ghost use Rattle.std.specs.Prelude.{◌≡◌, IfOk, Ok};

use std::alloc::AllocError;

/// Returns both values if both are there; otherwise drops the one that was made. The error is out of memory.
pub fn both<A: Drop, B: Drop>(
    first: Result<A, AllocError>,
    second: Result<B, AllocError>,
) -> Result<(A, B), AllocError>
    ensures { IfOk result (λ both. (first ≡ Ok both.0) × (second ≡ Ok both.1)) }
{
    let first = first?;
    let second = second?;
    Ok((first, second))
}

/// Returns both values if the second is there; otherwise drops the first. The error is out of memory.
pub fn pair_with<A: Drop, B>(first: A, second: Result<B, AllocError>) -> Result<(A, B), AllocError>
    ensures { IfOk result (λ both. (both.0 ≡ first) × (second ≡ Ok both.1)) }
{
    let second = second?;
    Ok((first, second))
}
