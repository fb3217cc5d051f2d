//! Which seed does a text represent?

ghost use Rattle.std.specs.Prelude.{◌≡◌, IfNone, IfSome};
ghost use Rattle.hex.specs.Hex.{encode_lower};
ghost use Rattle.command_line.specs.CommandLine.{IsNoSeed};

use hex::FromHex;

/// The default text of the seed.
pub const FIRST_SEED: &str = "0000000000000000000000000000000000000000000000000000000000000000";

/// Returns the seed whose lower-case hexadecimal digits, two for each byte, are the text; none if the text isn't 64
/// such digits.
pub fn seed_of(text: &str) -> Option<[u8; 32]>
    ensures seed { IfSome result (λ seed. encode_lower seed ≡ text.now) }
    ensures parsed { IfSome result (λ _. IsNoSeed text.now → ⊥) }
    ensures none { IfNone result (IsNoSeed text.now) }
{
    let seed = <[u8; 32] as FromHex>::from_hex(text).ok()?;
    if digits_of(seed).as_slice() == text.as_bytes() {
        Some(seed)
    } else {
        None
    }
}

/// Returns the seed's lower-case hexadecimal digits.
fn digits_of(seed: [u8; 32]) -> [u8; 64]
    ensures { result ≡ encode_lower seed }
{
    let mut digits = [0; 64];
    // there is room for two digits a byte
    let _ = hex::encode_to_slice(seed, &mut digits);
    digits
}
