//! The limit on live cells.

ghost use Rattle.std.specs.Prelude.{◌≡◌, true};
ghost use Rattle.gv_world.specs.Store.{is_within_limit};

use gv_store::Store;

/// A store is within the limit on live cells, which a proof learns where it counts them.
/// This project's own.
pub fn within(store: &Store)
    ensures { is_within_limit store.now ≡ true }
{
    let _ = store.live_cells();
}
