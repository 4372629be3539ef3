//! Files in memory, which fail at the calls of a list.

ghost use Rattle.std.specs.Prelude.{◌≡◌, ◌+◌, ◌-◌, ◌^◌, ◌<◌, ◌≤◌, take, length, IfOk, IfErr, ℕ, List as Seq};
ghost use Rattle.std.specs.Option.{option_copied};
ghost use Rattle.gv_base.specs.Outside.{bytes_under, told, Fetched, FetchCause, FetchName};
ghost use Rattle.gv_base.specs.Memory.{holding, fetches_to_fail, fetches, IsFetchAsListed, IsFaultAsFetched};

use crate::list::List;
use crate::name::Name;
use crate::outside::{FetchFail, Files};
use std::alloc::Global;

/// A name, and the bytes that are held under it. This project's own.
#[derive(Debug, PartialEq, Eq, Drop)]
pub struct Held {
    pub name: Name,
    pub bytes: Name,
}

/// What the first of these with the name holds.
pub fn find_held<'a>(held: &'a [Held], name: &[u8]) -> Option<&'a Name>
    ensures { option_copied result ≡ bytes_under held.now name.now }
{
    held.iter()
        .find(|h| h.name.as_slice() == name)
        .map(|h| &h.bytes)
}

/// The first `most + 1` bytes.
pub fn front(alloc: Global, bytes: &[u8], most: u64) -> Result<Vec<u8>, FetchFail>
    requires { most < 2 ^ 64 - 1 }
    ensures ok { IfOk result (λ v. v.items ≡ take (most + 1) bytes.now) }
    ensures err { IfErr result (λ e. e ≡ FetchFail.NoMemory) }
{
    let most = (most + 1) as usize;
    let bytes = if bytes.len() < most {
        bytes
    } else {
        &bytes[..most]
    };
    Ok(Vec::from_slice(alloc, bytes)?)
}

/// Files in memory, which fail at the fetches of a list. This project's own.
#[derive(Debug, Drop)]
pub struct MemFiles {
    held: List<Held>,
    fails: List<u64>,
    calls: u64,
    faults: u64,
    failed: Option<Name>,
}

impl MemFiles {
    /// Files that hold these bytes, and fail at the fetches with these numbers, counted from 1.
    /// Of two alike names the first counts; a file of a name that isn't held is absent.
    pub fn new(held: List<Held>, fails: List<u64>) -> MemFiles
        ensures held { (name : Seq ℕ) → ⟦<MemFiles as Files>⟧.held result name ≡ told (bytes_under held name) }
        ensures no_fault { ⟦<MemFiles as Files>⟧.faults result ≡ 0 }
        ensures given { (holding result ≡ held) × (fetches_to_fail result ≡ fails) }
        ensures no_call { fetches result ≡ 0 }
    {
        MemFiles {
            held,
            fails,
            calls: 0,
            faults: 0,
            failed: None,
        }
    }
}

impl Files for MemFiles {
    ghost held = { λ s n. told (bytes_under s.held n) };

    ghost failed = { λ s. s.failed };

    ghost faults = { λ s. s.faults };

    fn fetch(&mut self, alloc: Global, name: &str, most: u64) -> Result<Vec<u8>, FetchFail>
        requires { most < 2 ^ 64 - 1 }
        ensures bytes { IfOk result (λ v. Fetched (told (bytes_under self.old.held name.now)) most v.items) }
        ensures within { IfOk result (λ v. length v.items ≤ most + 1) }
        ensures kept { (other : Seq ℕ) → told (bytes_under self.new.held other) ≡ told (bytes_under self.old.held other) }
        ensures cause { FetchCause self.old.faults self.new.faults result }
        ensures name { FetchName self.old.failed self.new.failed name.now result }
        ensures exact { IsFetchAsListed self.old name.now self.new result }
        ensures fault { IsFaultAsFetched self.old name.now self.new result }
        ensures given { (holding self.new ≡ holding self.old) × (fetches_to_fail self.new ≡ fetches_to_fail self.old) }
    {
        let found = match find_held(self.held.as_slice(), name.as_bytes()) {
            Some(bytes) => Some(front(alloc, bytes.as_slice(), most)?),
            None => None,
        };
        let asked = Name::from_slice(alloc, name.as_bytes())?;
        self.calls = self.calls.saturating_add(1);
        match found {
            Some(bytes) if !self.fails.as_slice().contains(&self.calls) => Ok(bytes),
            _ => {
                self.faults = self.faults.saturating_add(1);
                self.failed = Some(asked);
                Err(FetchFail::Failed)
            }
        }
    }
}
