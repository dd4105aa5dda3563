// What the rules of the owner words that are built have to do with those of all owner words.
ghost use Rattle.std.specs.Prelude.{◌≡◌, ℕ, Contains, List};
ghost use Rattle.image_layout.specs.Tables.{all_columns};
ghost use Rattle.image_layout.specs.Owners.{link_places, owner_words};
ghost use Rattle.image_layout.specs.Checks.{Keeps};
ghost use Rattle.image_layout.specs.EntryRules.{tree_rule};
ghost use Rattle.image_layout.specs.SoundRules.{owner_rule, single_owner_rule, owned_rule};
ghost use Rattle.image_rules.specs.BuiltOwners.{HasNoTexts, leaf_links, built_owner_words, built_owner_rule, built_single_owner_rule, built_owned_rule};

/// A law for proofs: where trees keep their rule, the walk along the leaves of a column comes to the pointers of its leaf
/// list. Where no column of texts has a leaf besides, the owner words of tables, arrays, leaves and transaction objects
/// are all that the image has, and their rules are the image's. Texts join with dictionaries.
pub fn built_owners_law()
    ensures links { (words : List ℕ) (column : ℕ) → Keeps words tree_rule → Contains (all_columns words) column →
        leaf_links words column ≡ link_places words column }
    ensures owners { (words : List ℕ) → HasNoTexts words → built_owner_words words ≡ owner_words words }
    ensures named { (words : List ℕ) → HasNoTexts words → built_owner_rule words ≡ owner_rule words }
    ensures single { (words : List ℕ) → HasNoTexts words → built_single_owner_rule words ≡ single_owner_rule words }
    ensures owned { (words : List ℕ) → HasNoTexts words → built_owned_rule words ≡ owned_rule words }
{}
