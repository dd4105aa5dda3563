// What the first fault of an image says of it.
ghost use Rattle.std.specs.Prelude.{◌≡◌, ◌↔◌, ℕ, None, List, Some, slice_index};
ghost use Rattle.image_layout.specs.Fixed.{version_at};
ghost use Rattle.image_layout.specs.SoundRules.{IsIntact, IsSound, fault};

/// A law for proofs: an image has no fault exactly where it is sound. Its fault is that its version isn't the latest
/// exactly where it is intact and not sound, which in version 1 is where it is intact.
pub fn sound_law()
    ensures sound { (words : List ℕ) → (fault words ≡ None) ↔ IsSound words }
    ensures version { (words : List ℕ) →
        (fault words ≡ Some (record { rule = 31; place = 513 })) ↔ (IsIntact words × (IsSound words → ⊥)) }
    ensures first_version { (words : List ℕ) → slice_index words version_at ≡ 1 →
        (fault words ≡ Some (record { rule = 31; place = 513 })) ↔ IsIntact words }
{}
