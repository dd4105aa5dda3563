use thiserror::Error;

/// Why an image is refused before it is opened.
#[derive(Clone, Copy, Debug, PartialEq, Eq, Error)]
pub enum EntryError {
    /// The numbered rule that is the first not kept, and the place of the first word that breaks it.
    #[error("the image breaks rule {rule} at word {place}")]
    BadImage { rule: u8, place: u32 },
}
