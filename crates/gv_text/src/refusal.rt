//! Refusals of faults at bytes.

ghost use Rattle.std.specs.Prelude.{◌≡◌, ◌-◌, ◌^◌, ◌<◌, length};
ghost use Rattle.gv_text.specs.Stops as spec;

use crate::stop::Stop;
use gv_base::{Code, Refusal, place_of};

/// The refusal of a fault at a byte of a text of fewer than 2^32 - 1 bytes. What is behind the text's end stands at its end.
pub fn refusal_at(text: &[u8], at: u32, code: Code) -> Refusal
    requires { length text.now < 2 ^ 32 - 1 }
    ensures { result ≡ spec.refusal_at text.now at code }
{
    Refusal::At {
        place: place_of(text, at.min(text.len() as u32)),
        code,
    }
}

/// The refusal of a stop in a text of fewer than 2^32 - 1 bytes.
pub fn refusal_of(text: &[u8], stop: Stop) -> Refusal
    requires { length text.now < 2 ^ 32 - 1 }
    ensures { result ≡ spec.refusal_of text.now stop }
{
    match stop {
        Stop::NoMemory => Refusal::NoMemory,
        Stop::At(at, code) => refusal_at(text, at, code),
    }
}
