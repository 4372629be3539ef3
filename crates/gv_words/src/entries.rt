//! Entries with ascending keys, which is how finite maps from words hold them.

ghost use Rattle.std.specs.Prelude.{◌≡◌, ◌<◌, ◌≤◌, true, length, take, drop, IfOk, IfErr};
ghost use Rattle.std.specs.List.{All};
ghost use Rattle.gv_words.specs.Entries.{FitsAt, HoldsAt};
ghost use Rattle.gv_words.specs.Maps.{ascends};

/// The place of the entry with a key, or where one with it would fit in. It takes time by the logarithm of the number of
/// entries. This project's own.
pub fn find<V>(entries: &[(u64, V)], key: u64) -> Result<usize, usize>
    requires { ascends entries.now ≡ true }
    ensures found { IfOk result (λ i. HoldsAt entries.now key i) }
    ensures absent { IfErr result (λ i. FitsAt entries.now key i) }
{
    let mut low = 0;
    let mut high = entries.len();
    while low < high {
        let middle = low + (high - low) / 2;
        let here = entries[middle].0;
        if here == key {
            return Ok(middle);
        }
        if here < key {
            low = middle + 1;
        } else {
            high = middle;
        }
    }
    Err(low)
}
