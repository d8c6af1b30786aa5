//! The command `import`: the usage files of a folder, into a store. Each file is a command to the
//! desk, and each name has its line.

mod file;
mod folder;
mod line;
mod name;
mod names;
pub(crate) mod store;
