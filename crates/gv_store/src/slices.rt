//! Slices as values, apart from any store.

ghost use Rattle.std.specs.Prelude.{◌≡◌, ◌+◌, ◌-◌, ◌^◌, ◌<◌};
ghost use Rattle.gv_world.specs.Slices as slices;

use gv_base::{Answer, Reason, SliceVal};

/// The nil slice. This project's own.
pub fn nil_slice() -> SliceVal
    ensures { result ≡ slices.nil_slice }
{
    whole_of(0, 0)
}

/// The slice that is all of an object of so many cells. This project's own.
pub fn whole_of(object: u32, count: u64) -> SliceVal
    ensures { result ≡ slices.whole_of object count }
{
    SliceVal {
        object,
        offset: 0,
        length: count,
        capacity: count,
    }
}

/// The slice with one of its spare cells. This project's own.
pub fn longer(slice: SliceVal) -> SliceVal
    requires { slice.length < 2 ^ 64 - 1 }
    ensures { result ≡ slices.longer slice }
{
    SliceVal {
        length: slice.length + 1,
        ..slice
    }
}

/// The slice's cells from one place on and before another, which may be up to its capacity; else it is
/// undefined. This project's own, after the Go specification, "Slice expressions".
pub fn sub(slice: SliceVal, from: u64, to: u64) -> Answer<SliceVal>
    requires { slice.offset + slice.capacity < 2 ^ 64 }
    ensures { result ≡ slices.sub slice from to }
{
    if to < from || slice.capacity < to {
        return Answer::Undefined(Reason::OutOfRange);
    }
    Answer::Next(SliceVal {
        object: slice.object,
        offset: slice.offset + from,
        length: to - from,
        capacity: slice.capacity - from,
    })
}
