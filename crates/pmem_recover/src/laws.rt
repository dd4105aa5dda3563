// What the plans of opening leave, also where a power cut comes in one of them.
ghost use Rattle.std.specs.Prelude.{◌≡◌, ◌↔◌, ℕ, ◌<◌, false, List, [], None, All};
ghost use Rattle.image_layout.specs.declared.layout.TheConstants.{LANES};
ghost use Rattle.image_layout.specs.Checks.{Keeps, Numbered, first_fault};
ghost use Rattle.image_layout.specs.SoundRules.{IsIntact};
ghost use Rattle.image_layout.specs.Tables.{is_first_version};
ghost use Rattle.pm_model.specs.Changes.{Survives};
ghost use Rattle.pm_model.specs.Needed.{after_mending};
ghost use Rattle.heap_palloc.specs.Lane.{mended_lane};
ghost use Rattle.shown_state.specs.LaneRules.{KeepsLaneRules, MayMend};
ghost use Rattle.shown_state.specs.Mending.{lane_mending, version_mending};
ghost use Rattle.shown_state.specs.OpeningParts.{IsImage};
ghost use Rattle.pmem_recover.specs.EntryRules.{entry_rules};
ghost use Rattle.pmem_recover.specs.LaneStep.{IsApartImage, lane_step};
ghost use Rattle.pmem_recover.specs.VersionStep.{version_step};

/// A law for proofs: opening's step of a lane leaves it mended and idle, and a cut of the step is mended to the same
/// words. Each lane may be mended, whatever a power cut left half done: where the image keeps the rules that every
/// image keeps, and its owner words are apart.
pub fn lane_opening_law()
    ensures may { (words : List ℕ) (lane : ℕ) → IsApartImage words → lane < LANES → MayMend words lane }
    ensures survives { (lane : ℕ) → Survives (lane_step lane) }
    ensures mends { (words : List ℕ) (lane : ℕ) →
        MayMend words lane → after_mending (lane_mending lane) words ≡ mended_lane lane words }
{}

/// A law for proofs: words have no first fault exactly where they keep each rule, and then they keep those on which the
/// mending of lanes relies.
pub fn fault_law()
    ensures none { (rules : List Numbered) (words : List ℕ) →
        (first_fault rules words ≡ None) ↔ All (λ rule. Keeps words rule.rule) rules }
    ensures lanes { (words : List ℕ) → first_fault entry_rules words ≡ None → KeepsLaneRules words }
{}

/// A law for proofs: opening's step from version 1 to version 2, where the image keeps the rules that every image
/// keeps, and its owner words are apart, as in an intact image they are. Each cut of it has the same tables, with the
/// same columns, and all words but those of the step as they were; mended again it comes to the same words, which are
/// of version 2. In version 2 it has no part.
pub fn version_law()
    ensures survives { Survives version_step }
    ensures intact { (words : List ℕ) → IsImage words → IsIntact words → IsApartImage words }
    ensures none { (words : List ℕ) → is_first_version words ≡ false → version_mending words ≡ [] }
{}
