ghost use Rattle.std.specs.Prelude.{◌≡◌};
ghost use Rattle.img_check.specs.declared.error.CheckError.TheVariants.{NoMemory as OutOfMemory};

use pm_model::NoMemory;
use thiserror::Error;

/// Why an image isn't found sound.
#[derive(Clone, Copy, Debug, PartialEq, Eq, Error)]
pub enum CheckError {
    /// The numbered rule that is the first not kept, and the place of the first word that breaks it.
    #[error("the image breaks rule {rule} at word {place}")]
    Unsound { rule: u8, place: u32 },
    /// A request for memory was refused.
    #[error("out of memory")]
    NoMemory,
}

impl From<NoMemory> for CheckError {
    ghost from_gives = { λ _ error. error ≡ OutOfMemory };

    fn from(_refused: NoMemory) -> CheckError {
        CheckError::NoMemory
    }
}
