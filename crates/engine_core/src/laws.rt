// What opening makes of an image, and of one whose opening was cut short.
ghost use Rattle.std.specs.Prelude.{◌≡◌, ℕ, ◌*◌, ◌≤◌, ◌↔◌, [], List, length, take, None};
ghost use Rattle.pm_model.specs.Plans.{IsPlan, plan_of, run, at_rest};
ghost use Rattle.engine_core.specs.Stage.{stage_words};
ghost use Rattle.engine_core.specs.LogicalState.{logical_state, one_empty_table};
ghost use Rattle.engine_core.specs.ImageRules.{KeepsEntryRules, IsSound};
ghost use Rattle.engine_core.specs.Opening.{opening_parts, opening_fault, recovered};
ghost use Rattle.engine_core.specs.Recoverable.{Fits, IsCutOpening, IsRecoverable, ShowsStill};

/// The law of opening, on images of one segment or more.
pub fn opening_law()
    // Its parts are a plan, after which the device rests with the recovered words.
    ensures plan { (words : List ℕ) → 32768 ≤ length words → KeepsEntryRules words
        → IsPlan (length words) (opening_parts words) }
    ensures reaches { (words : List ℕ) → 32768 ≤ length words → KeepsEntryRules words →
        run 0 (plan_of (opening_parts words)) (at_rest words) ≡ at_rest (recovered words) }

    // A power cut after any of its actions leaves an image that can be opened anew, and shows the same.
    ensures cut { (words : List ℕ) (k : ℕ) (image : List ℕ) → 32768 ≤ length words → IsRecoverable words →
        IsCutOpening words k image → ShowsStill words image }

    // The images that it recovers are exactly those that fit together word by word.
    ensures fits { (words : List ℕ) → 32768 ≤ length words → IsRecoverable words ↔ Fits words }

    // It accepts exactly the images that keep the rules of each image, and that are sound once they are opened; among
    // them are those that it recovers.
    ensures faultless { (words : List ℕ) → 32768 ≤ length words
        → (opening_fault words ≡ None) ↔ (KeepsEntryRules words × IsSound (recovered words)) }
    ensures accepted { (words : List ℕ) → 32768 ≤ length words → IsRecoverable words → opening_fault words ≡ None }

    // It plays nothing on a sound image.
    ensures sound { (words : List ℕ) → IsSound words → (opening_parts words ≡ []) × (recovered words ≡ words) }
    ensures sound_fits { (words : List ℕ) → IsSound words → IsRecoverable words × Fits words }

    // A formatted image is sound, and shows a store of one empty table.
    ensures formatted { (segments : ℕ) → 1 ≤ segments →
        IsSound (stage_words segments) × IsRecoverable (stage_words segments)
        × (logical_state (stage_words segments) ≡ one_empty_table) }
{}
