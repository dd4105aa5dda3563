// Images that are built word by word, and what stands in them.
use pm_model::{NoMemory, fresh};
use std::alloc::Global;
use test_ground::set_words;

/// A word by its place, and what it becomes.
pub(crate) type Change = (usize, u64);

/// A formatted image with one table `t a:int` without rows and values, whose block is the first slot of page 4.
pub(crate) const TABLE: [Change; 9] = [
    (515, 1),
    (520, BLOCK),
    (4, 6),
    (2048, 1),
    (2056, 1),
    (2058, 116),
    (2062, 1),
    (2096, 1),
    (2097, 97),
];

/// The pointers to the first table slot, and to the first slot of page 4 and the last page of one segment.
pub(crate) const SLOT: u64 = 4_294_967_816;

pub(crate) const BLOCK: u64 = 4_294_969_352;

pub(crate) const LAST_PAGE: u64 = 4_294_999_552;

/// The pointers to the second and the third slot of page 4.
pub(crate) const LEAF: u64 = 4_294_969_480;

pub(crate) const NEXT_LEAF: u64 = 4_294_969_608;

/// The pointer to page 5.
pub(crate) const PAGE_5: u64 = 4_294_969_856;

/// A row of the table with the value 7, which commit 1 created. The first chunks of the arrays of creators, of enders,
/// of codes and of the dictionary are the pages 5 to 8, and the leaf is the second slot of page 4.
pub(crate) const VALUE: [Change; 21] = [
    (514, 1),
    (2057, 1),
    (5, 17),
    (6, 17),
    (7, 17),
    (8, 17),
    (2064, 1),
    (2065, PAGE_5),
    (2080, 1),
    (2081, PAGE_5 + 512),
    (2104, 1),
    (2105, PAGE_5 + 1024),
    (2120, 1),
    (2121, PAGE_5 + 1536),
    (2560, 1),
    (4096, (1 << 63) + 7),
    (2048, 3),
    (2100, BLOCK + 128),
    (2184, 1),
    (2186, 135),
    (2192, (1 << 63) + 7),
];

/// What makes the image with the table one of version 1.
pub(crate) const FIRST_VERSION: [Change; 2] = [(513, 1), (2062, 0)];

/// Two columns more, `b:text` and `c:int`, in extensions, which are the first two slots of page 5. The rows below 2
/// have no word in `b`, and those below 4 have none in `c`.
pub(crate) const EXTENSIONS: [Change; 11] = [
    (2056, 3),
    (2061, EXTENSION),
    (5, 5),
    (2560, 3),
    (2568, EXTENSION + 64),
    (2576, 2),
    (2577, 98),
    (2583, 2),
    (2640, 1),
    (2641, 99),
    (2647, 4),
];

/// The table with two commits and two columns more, `b:int` from row 1 on and `c:text` from row 2 on: commit 1 created
/// row 0 with the value 7, and commit 2 ended it and created row 1 with the values -3 and 5. The chunks of the arrays
/// are the pages 5 to 8, 10 and 11, the leaves are slots of page 4, and the extensions those of page 9. These are the
/// words of `two_commit_image`, of which `worked_images_law` of `shown_state` tells the state.
pub(crate) const TWO_COMMITS: [Change; 49] = [
    (514, 2),
    // The pages, and the slots of pages 4 and 9.
    (5, 17),
    (6, 17),
    (7, 17),
    (8, 17),
    (9, 5),
    (10, 17),
    (11, 17),
    (2048, 7),
    (4608, 3),
    // The block: three columns, the bound, the first extension, and the arrays of creators and enders.
    (2056, 3),
    (2057, 2),
    (2061, PAGE_9 + 8),
    (2064, 1),
    (2065, PAGE_5),
    (2080, 1),
    (2081, PAGE_5 + 512),
    (2560, 1),
    (2561, 2),
    (3072, 2),
    // The column of the block: its leaf, its codes and its dictionary.
    (2100, BLOCK + 128),
    (2104, 1),
    (2105, PAGE_5 + 1024),
    (2120, 1),
    (2121, PAGE_5 + 1536),
    (2184, 3),
    (2186, 33415),
    (2192, (1 << 63) + 7),
    (2194, (1 << 63) - 3),
    (2195, 1),
    (3585, 1),
    (4096, (1 << 63) + 7),
    (4097, (1 << 63) - 3),
    // The first extension, with its leaf, its codes and its dictionary.
    (4616, PAGE_9 + 72),
    (4624, 1),
    (4625, 98),
    (4628, BLOCK + 256),
    (4631, 1),
    (4632, 1),
    (4633, PAGE_9 + 512),
    (4648, 1),
    (4649, PAGE_9 + 1024),
    (2312, 1),
    (2314, 133),
    (2320, (1 << 63) + 5),
    (5632, (1 << 63) + 5),
    // The second extension, of a column that has no values.
    (4688, 2),
    (4689, 99),
    (4695, 2),
];

/// The pointer to page 9.
pub(crate) const PAGE_9: u64 = PAGE_5 + 2048;

/// The pointer to the first slot of page 5.
pub(crate) const EXTENSION: u64 = PAGE_5 + 8;

/// A formatted image of one segment in which words were changed, list by list.
pub(crate) fn image(alloc: Global, lists: &[&[Change]]) -> Result<Vec<u64>, NoMemory> {
    let mut words = fresh(alloc, 1)?;
    for changes in lists {
        set_words(&mut words, changes);
    }
    Ok(words)
}
