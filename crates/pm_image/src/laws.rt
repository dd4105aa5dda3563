//! Laws of the spelling alone.

ghost use Rattle.std.specs.Prelude.{◌≡◌, ◌<◌, List, ℕ, None, All};
ghost use Rattle.pm_image.specs.Spelling.{IsImage, spelling};
ghost use Rattle.pm_image.specs.Fault.{first_fault};

/// Two images with one spelling are one image.
pub fn one_spelling()
    ensures { (a b : List ℕ) → IsImage a → IsImage b → spelling a ≡ spelling b → a ≡ b }
{}

/// A spelling has no fault.
pub fn no_fault()
    ensures { (words : List ℕ) → IsImage words → first_fault (spelling words) ≡ None }
{}

/// Bytes with no fault are the spelling of an image.
pub fn faultless_bytes()
    ensures { (bytes : List ℕ) → All (λ byte. byte < 256) bytes → first_fault bytes ≡ None
        → (words : List ℕ) × (IsImage words × (bytes ≡ spelling words)) }
{}
