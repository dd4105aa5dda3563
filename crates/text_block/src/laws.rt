// What the writing of a text keeps through each power cut, and which texts may be read.
ghost use Rattle.std.specs.Prelude.{◌≡◌, ℕ, IsTrue, IsUtf8, List};
ghost use Rattle.image_layout.specs.EntryRules.{is_text_pointer};
ghost use Rattle.image_layout.specs.Places.{place_in};
ghost use Rattle.image_layout.specs.Trees.{text_at};
ghost use Rattle.pm_model.specs.Changes.{Survives};
ghost use Rattle.text_block.specs.Blocks.{IsPlacedText, IsTextBlock};
ghost use Rattle.text_block.specs.Changes.{Writing, IsWritten, writing};

/// A writing: each cut leaves the words outside the block as they were, and each word of it as it was or as it is to
/// be. After its last action the block has the text, which may be read, and reads back.
pub fn write_law()
    ensures survives { (w : Writing) → Survives (writing w) }
    ensures text { (w : Writing) (base words : List ℕ) → IsUtf8 w.text → IsWritten w base words →
        text_at words w.at ≡ w.text }
    ensures sound { (w : Writing) (base words : List ℕ) → IsUtf8 w.text → IsWritten w base words →
        IsTextBlock words w.at }
{}

/// A key word that keeps the rule of texts' key words names a text that may be compared, and one whose bytes are UTF-8
/// names a text that may be read.
pub fn block_law()
    ensures placed { (words : List ℕ) (key : ℕ) → IsTrue (is_text_pointer words key) →
        IsPlacedText words (place_in key) }
    ensures sound { (words : List ℕ) (key : ℕ) → IsTrue (is_text_pointer words key) →
        IsUtf8 (text_at words (place_in key)) → IsTextBlock words (place_in key) }
{}
