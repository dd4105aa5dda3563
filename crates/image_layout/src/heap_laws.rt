// What the definitions of a heap's words have to do with one another.
ghost use Rattle.image_layout.specs.HeapLaws.{LiveBlocksAreApart, FreePagesAreUnused};

/// Two live blocks are one or share no word, and a page is free exactly where it isn't reserved, isn't a small page,
/// and no live block has a word of it.
pub fn heap_law()
    ensures apart { LiveBlocksAreApart }
    ensures free { FreePagesAreUnused }
{}
