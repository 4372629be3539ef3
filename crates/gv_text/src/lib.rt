//! What the texts of every kind share on the way from bytes to tokens and from faults to refusals.
//!
//! A kind of text says what its pieces are (`Lexis` of `specs/Cutting`): the form of the piece that begins at a place, how long it
//! is, what is wrong with it, and which tokens pieces give. Here stand how a text is cut into them, which fault comes first, and
//! how a call answers. `digits` has the value of digits, `found` the fault of a grammar, and `stop` and `refusal` faults at
//! bytes and the refusals of these.
#![tactic(auto)]

mod bytes;
mod digits;
mod found;
mod gaps;
mod judging;
mod laws;
mod refusal;
mod signs;
mod stop;

pub use bytes::{is_blank, is_decimal, is_digit};
pub use digits::{value_of, word_of};
pub use found::{Found, unexpected};
pub use gaps::{blank_len, line_len};
pub use gv_base::{Kind, Token, place_of};
pub use judging::{judged, mark_len, utf8_end};
pub use laws::{faults_are_ordered, texts_are_decided};
pub use refusal::{refusal_at, refusal_of};
pub use signs::sign_kind;
pub use stop::Stop;
