//! The outside: doors, clocks, spools and keepers, each a trait that says what its calls do, and
//! one of each in memory.
#![tactic(auto)]

mod calls;
pub mod clock;
pub mod door;
pub mod fault;
pub mod item;
pub mod item_laws;
pub mod keeper;
pub mod memory_clock;
pub mod memory_door;
mod memory_items;
pub mod memory_keeper;
pub mod memory_spool;
pub mod spool;
pub mod whole;
mod wire;

pub use clock::Clock;
pub use door::Door;
pub use fault::{Failed, KeepFault, SpoolFault};
pub use item::{Item, ItemKey, Put};
pub use keeper::Keeper;
pub use memory_clock::MemoryClock;
pub use memory_door::{DoorCalls, MemoryDoor};
pub use memory_keeper::{KeeperCalls, MemoryKeeper};
pub use memory_spool::{MemorySpool, SpoolCalls};
pub use spool::{MOST_READ, Spool};
pub use whole::{ReadFault, read_whole, say};
