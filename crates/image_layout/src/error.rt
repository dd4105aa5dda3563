/// A request for memory was refused.
pub type NoMemory = std::alloc::AllocError;
