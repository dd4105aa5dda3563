// What the creation of a table keeps through each power cut, whatever is played beside it, and where the records of
// columns stand.
ghost use Rattle.std.specs.Prelude.{◌≡◌, ℕ, ◌+◌, ◌%◌, ◌<◌, ◌≤◌, [], ◌∷◌, ◌++◌, List, length};
ghost use Rattle.image_layout.specs.Checks.{Keeps};
ghost use Rattle.image_layout.specs.EntryRules.{table_count_rule, table_slot_rule};
ghost use Rattle.image_layout.specs.Tables.{HasRecords, column_count, column_record, table_block, table_count};
ghost use Rattle.pm_model.specs.Changes.{Survives};
ghost use Rattle.shown_state.specs.LogicalState.{logical_state};
ghost use Rattle.catalog.specs.Changes.{creation, IsCreationOn};
ghost use Rattle.catalog.specs.Creation.{Creation};
ghost use Rattle.catalog.specs.Entries.{HasNames, published_tables};
ghost use Rattle.catalog.specs.Shown.{new_table, shown_table, IsUncreated, IsCreated};

/// A creation: once opening's steps of its lane and of the table slot at the count were made, each cut has the tables
/// and the live blocks before it, or those after it. After its last action it has those after it. Where the entry rules
/// are kept and owner words are apart, the published tables are those before, or those and the new one.
pub fn creation_law()
    ensures survives { (c : Creation) → Survives (creation c) }
    ensures before { (base words : List ℕ) (c : Creation) →
        IsCreationOn base c → IsUncreated base c words → published_tables words ≡ published_tables base }
    ensures after { (base words : List ℕ) (c : Creation) → IsCreationOn base c → HasNames c.name c.columns →
        IsCreated base c words → published_tables words ≡ published_tables base ++ new_table c ∷ [] }
    ensures shown_before { (base words : List ℕ) (c : Creation) →
        IsCreationOn base c → IsUncreated base c words → (logical_state words).tables ≡ (logical_state base).tables }
    ensures shown_after { (base words : List ℕ) (c : Creation) → IsCreationOn base c → HasNames c.name c.columns →
        IsCreated base c words → (logical_state words).tables ≡ (logical_state base).tables ++ shown_table c ∷ [] }
{}

/// The records of columns: those of a published table are there, in an image of either version that keeps the rules of
/// the table count and of the table slots. Each lies in the image.
pub fn records_law()
    ensures published { (words : List ℕ) (table : ℕ) → length words % 32768 ≡ 0 → Keeps words table_count_rule →
        Keeps words table_slot_rule → table < table_count words → HasRecords words (table_block words table) }
    ensures within { (words : List ℕ) (block number : ℕ) → HasRecords words block →
        number < column_count words block → column_record words block number + 40 ≤ length words }
{}
