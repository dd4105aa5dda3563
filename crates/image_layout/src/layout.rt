// The sizes and numbers of the layout, each said once.

/// Words of a line, the unit of a flush. Eight words are the 64 bytes of a cache line.
pub const LINE_WORDS: u32 = 8;

/// Words of a page, the unit of the heap and of a punch. They are the 4,096 bytes of an operating system's page.
pub const PAGE_WORDS: u32 = 512;

/// Lines of a page.
pub const PAGE_LINES: u32 = PAGE_WORDS / LINE_WORDS;

/// Pages of a segment. Their descriptors are the first 64 words of the segment's first page.
pub const SEGMENT_PAGES: u32 = 64;

/// Words of a segment, in whole numbers of which a device comes: 256 KiB.
pub const SEGMENT_WORDS: u32 = SEGMENT_PAGES * PAGE_WORDS;

/// Segments of the largest device, which has 32 MiB. All its places and pages fit `Place` and `Page`.
pub const MAX_SEGMENTS: u32 = 128;

/// Words of the largest device.
pub const MAX_WORDS: u32 = MAX_SEGMENTS * SEGMENT_WORDS;

/// Sessions, numbered from 1. Number 0 is the opener, which acts before any of them.
pub const SESSIONS: u8 = 16;

/// Lanes, numbered from 0: one for each session, so that no two sessions log an allocation in one place.
pub const LANES: u8 = SESSIONS;

/// Words of a lane, of which three are used. A lane is a line of its own, so a flush touches one lane alone.
pub const LANE_WORDS: u32 = LINE_WORDS;

/// Transaction objects, numbered from 0: one for each session, which runs one transaction at a time.
pub const OBJECTS: u8 = SESSIONS;

/// Words of a transaction object: eight lines.
pub const OBJECT_WORDS: u32 = 64;

/// Entries that stand in a transaction object itself: what its four other words leave.
pub const OBJECT_ENTRIES: u8 = 60;

/// Entries of a segment, which a transaction object gets when its own are used: what the pointer to the next one
/// leaves.
pub const SEGMENT_ENTRIES: u8 = 255;

/// Words of a block that holds a segment of entries.
pub const ENTRY_SEGMENT_WORDS: u32 = 256;

/// Segments of entries that an object has at most.
pub const MAX_ENTRY_SEGMENTS: u32 = 32;

/// Words of a table's block before the columns in it, and words of a column.
pub const TABLE_HEAD_WORDS: u32 = 40;

pub const COLUMN_WORDS: u32 = 40;

/// Words of an extension, a block with one more column of a table, and those before the column in it.
pub const EXTENSION_WORDS: u32 = EXTENSION_HEAD_WORDS + COLUMN_WORDS;

pub const EXTENSION_HEAD_WORDS: u32 = LINE_WORDS;

/// Words of an array's header, of a name.
pub const HEADER_WORDS: u32 = 16;

pub const NAME_WORDS: u32 = 3;

/// Columns of a table at most.
pub const MAX_COLUMNS: u8 = 16;

/// Table slots: as many words as four lines have.
pub const TABLES: u8 = 32;

/// The image's magic number: the bytes `SOFORTDB`, the first one lowest.
pub const MAGIC: u64 = 0x4244_5452_4F46_4F53;

/// The version of the format.
pub const VERSION: u64 = 2;

/// The version before it, which opening brings to this one: a table has no extensions, and doesn't say how many columns
/// stand in its block.
pub const FIRST_VERSION: u64 = 1;

/// The descriptor of a free page that was given back: its words are 0. That of any other free page is 0.
pub const GIVEN_BACK: u64 = 1;

/// A small page has the descriptor `SMALL_PAGE` + its class, which is 0 to 5.
pub const SMALL_PAGE: u64 = 2;

/// The descriptor of a small page of the last class.
pub const LAST_SMALL_PAGE: u64 = 7;

/// The descriptor of a page that the heap never gives out.
pub const RESERVED: u64 = 8;

/// The head of a big block of n pages has the descriptor `BIG_HEAD` + n, where n is 1 to 63.
pub const BIG_HEAD: u64 = 16;

/// The descriptor of the head of the longest big block.
pub const LAST_BIG_HEAD: u64 = 79;

/// The pages of the first segment that are reserved: its descriptors and the fixed places.
pub const FIXED_PAGES: u32 = 4;

/// The words of a small page before its first slot: the bitmap and the rest of its line.
pub const FIRST_SLOT: u32 = 8;

/// The op of a lane that is at work on nothing.
pub const IDLE: u64 = 0;

/// The op of a lane that is at work on an allocation.
pub const ALLOCATING: u64 = 1;

/// The op of a lane that is at work on a freeing.
pub const FREEING: u64 = 2;

/// The state of a transaction object without a transaction.
pub const CLOSED: u64 = 0;

/// The state of a transaction object whose transaction is open.
pub const OPEN: u64 = 1;

/// The stamp that a row has for its creator where no commit created it and none will: its transaction was undone. It is
/// above each number of a commit, so no reader ever sees the row.
pub const NO_COMMIT: u64 = u64::MAX;

/// The greatest number of a commit: such numbers have 40 bits.
pub const MAX_COMMITS: u64 = (1 << 40) - 1;
