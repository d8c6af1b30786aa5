//! The memory that connections are served with.
use console::Answer;
use http_requests::RequestBuffer;
use mud_base::Memory;
use std::alloc::Global;

/// The buffer of the requests, and that of the answers.
#[derive(Drop)]
pub(crate) struct Room {
    pub(crate) requests: RequestBuffer,
    pub(crate) answer: Answer,
}

impl Room {
    /// Takes the memory of both.
    pub(crate) fn new(alloc: Global) -> Result<Room, Memory> {
        Ok(Room {
            requests: RequestBuffer::new(alloc)?,
            answer: Answer::new(alloc)?,
        })
    }
}
