//! A connection that fails.
use mud_base::{Bytes, Listed, Memory};
use mud_world::MemoryDoor;
use std::alloc::Global;

/// A connection at which these octets come at once, and whose second read fails.
pub(crate) fn failing_door(alloc: Global, octets: &[u8]) -> Result<MemoryDoor, Memory> {
    let octets = Bytes::new(alloc, octets)?;
    let pieces = Listed::from_vec(vec![in alloc; octets]?);
    let inputs = Listed::from_vec(vec![in alloc; pieces]?);
    let mut door = MemoryDoor::new(alloc, inputs, 4)?;
    door.failing_read = Listed::from_vec(vec![in alloc; 2]?);
    Ok(door)
}
