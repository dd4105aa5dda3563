/// Whether there is room for one pair more.
#[derive(Clone, Copy, Debug, PartialEq, Eq)]
pub enum Room {
    /// Its leaf has a free slot.
    Free,
    /// The tree has no leaf.
    NoLeaf,
    /// Its leaf has none.
    LeafFull,
}
