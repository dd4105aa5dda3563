// The numbers that lanes and pages hold.

pub(crate) use pm_model::{ALLOCATING, FIRST_SLOT, FREEING, IDLE, SMALL_PAGE};
