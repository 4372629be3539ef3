//! Where tokens stand, by halves.

ghost use Rattle.std.specs.Prelude.{◌≡◌, ◌<◌, ◌≤◌, ℕ, IfOk, length, nat_lt, nat_le, true, false, slice_get, unwrap_or};
ghost use Rattle.std.specs.List.Sorted.{IsNonDecreasingBy, IsPartitionPoint};
ghost use Rattle.gv_gotokens.specs.Indexed.{starts_of, AreOrdered};

use gv_base::NoMemory;
use gv_gosyntax::Lexeme;
use std::alloc::Global;

/// How many of the starts come before or at a place.
pub(crate) fn count_until(starts: &[u32], at: u32) -> usize
    requires { IsNonDecreasingBy (λ s. s) starts.now }
    ensures { IsPartitionPoint (λ s. nat_le s at ≡ true) (λ s. nat_le s at ≡ false) starts.now result }
{
    starts.partition_point(
        |start: &u32| -> bool
            ensures { result ≡ nat_le start.now at }
        { *start <= at },
    )
}

/// How many tokens begin before a place.
pub(crate) fn count_before(tokens: &[Lexeme], at: u32) -> usize
    requires { AreOrdered tokens.now }
    ensures within { result ≤ length tokens.now }
    ensures parted { IsPartitionPoint (λ t. nat_lt t.start at ≡ true) (λ t. nat_lt t.start at ≡ false) tokens.now result }
{
    tokens.partition_point(
        |token: &Lexeme| -> bool
            ensures { result ≡ nat_lt token.now.start at }
        { token.start < at },
    )
}

/// The start with a number, or a place where there is none.
pub(crate) fn start_or(starts: &[u32], number: usize, at: u32) -> u32
    ensures { result ≡ unwrap_or (slice_get starts.now number) at }
{
    match starts.get(number) {
        Some(start) => *start,
        None => at,
    }
}

/// Where the tokens of a class begin.
pub(crate) fn starts_in(alloc: Global, class: u8, tokens: &[Lexeme]) -> Result<Vec<u32>, NoMemory>
    ensures { IfOk result (λ v. v.items ≡ starts_of class tokens.now) }
{
    let mut starts = Vec::new(alloc);
    for token in tokens {
        if token.class == class {
            starts.push(token.start)?;
        }
    }
    Ok(starts)
}
