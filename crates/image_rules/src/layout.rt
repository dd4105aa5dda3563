// The numbers that lanes, pages and objects hold.

pub(crate) use pm_model::{
    BIG_HEAD, FIRST_SLOT, FIXED_PAGES, FREEING, GIVEN_BACK, IDLE, LAST_BIG_HEAD, LAST_SMALL_PAGE,
    MAX_COMMITS, OPEN, SMALL_PAGE,
};

// The words of a leaf, and of the block that it is given.
pub(crate) const LEAF_WORDS: u32 = 104;

pub(crate) const LEAF_BLOCK_WORDS: u32 = 128;

// The slots of a leaf, each with a bit of its bitmap.
pub(crate) const LEAF_SLOTS: u32 = 48;
