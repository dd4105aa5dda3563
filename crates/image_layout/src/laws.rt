// What the definitions of an image's rules have to do with one another, and the numbers of the layout.
ghost use Rattle.std.specs.Prelude.{◌≡◌, ◌-◌, ◌^◌, ◌↔◌, ℕ, All, List, None};
ghost use Rattle.image_layout.specs.Checks.{Keeps, Numbered, first_fault};

use crate::chunks::MAX_CHUNKS;
use crate::layout::{
    ALLOCATING, BIG_HEAD, CLOSED, COLUMN_WORDS, ENTRY_SEGMENT_WORDS, EXTENSION_HEAD_WORDS,
    EXTENSION_WORDS, FIRST_SLOT, FIRST_VERSION, FIXED_PAGES, FREEING, GIVEN_BACK, HEADER_WORDS,
    IDLE, LANE_WORDS, LANES, LAST_BIG_HEAD, LAST_SMALL_PAGE, LINE_WORDS, MAGIC, MAX_COLUMNS,
    MAX_COMMITS, MAX_ENTRY_SEGMENTS, MAX_SEGMENTS, MAX_WORDS, NAME_WORDS, NO_COMMIT,
    OBJECT_ENTRIES, OBJECT_WORDS, OBJECTS, OPEN, PAGE_LINES, PAGE_WORDS, RESERVED, SEGMENT_ENTRIES,
    SEGMENT_PAGES, SEGMENT_WORDS, SESSIONS, SMALL_PAGE, TABLE_HEAD_WORDS, TABLES, VERSION,
};

/// An image has no first fault exactly where it keeps each of the rules.
pub fn fault_law()
    ensures { (rules : List Numbered) (words : List ℕ)
        → (first_fault rules words ≡ None) ↔ All (λ rule. Keeps words rule.rule) rules }
{}

/// The numbers of the layout, as the definitions have them.
pub fn limits_law()
    ensures line { LINE_WORDS ≡ 8 }
    ensures page { (PAGE_WORDS ≡ 512) × (PAGE_LINES ≡ 64) }
    ensures segment { (SEGMENT_PAGES ≡ 64) × (SEGMENT_WORDS ≡ 32768) }
    ensures device { (MAX_SEGMENTS ≡ 128) × (MAX_WORDS ≡ 4194304) }
    ensures sessions { (SESSIONS ≡ 16) × (LANES ≡ 16) × (OBJECTS ≡ 16) }
    ensures lane { (LANE_WORDS ≡ 8) × (IDLE ≡ 0) × (ALLOCATING ≡ 1) × (FREEING ≡ 2) }
    ensures object { (OBJECT_WORDS ≡ 64) × (OBJECT_ENTRIES ≡ 60) × (CLOSED ≡ 0) × (OPEN ≡ 1) }
    ensures entries { (ENTRY_SEGMENT_WORDS ≡ 256) × (SEGMENT_ENTRIES ≡ 255) × (MAX_ENTRY_SEGMENTS ≡ 32) }
    ensures table { (TABLES ≡ 32) × (TABLE_HEAD_WORDS ≡ 40) × (NAME_WORDS ≡ 3) }
    ensures column { (MAX_COLUMNS ≡ 16) × (COLUMN_WORDS ≡ 40) }
    ensures extension { (EXTENSION_WORDS ≡ 48) × (EXTENSION_HEAD_WORDS ≡ 8) }
    ensures array { (HEADER_WORDS ≡ 16) × (MAX_CHUNKS ≡ 12) }
    ensures fixed { (MAGIC ≡ 0x4244_5452_4F46_4F53) × (FIXED_PAGES ≡ 4) × (FIRST_SLOT ≡ 8) }
    ensures versions { (VERSION ≡ 2) × (FIRST_VERSION ≡ 1) }
    ensures free { GIVEN_BACK ≡ 1 }
    ensures small { (SMALL_PAGE ≡ 2) × (LAST_SMALL_PAGE ≡ 7) }
    ensures reserved { RESERVED ≡ 8 }
    ensures big { (BIG_HEAD ≡ 16) × (LAST_BIG_HEAD ≡ 79) }
    ensures commits { MAX_COMMITS ≡ 2 ^ 40 - 1 }
    ensures dead { NO_COMMIT ≡ 2 ^ 64 - 1 }
{}
