//! Lists whose nodes hold the items before them.

/// The last item of a list: it has none, or an item with the place of the list before it; or the list is the one at another place.
#[derive(Clone, Copy, Debug)]
pub enum Last<T> {
    Empty,
    Item { item: T, before: usize },
    Same { at: usize },
}
