//! What failed of the outside, for those who run the program.
use std::io;

/// What a call of the outside was made for.
#[derive(Clone, Copy)]
pub enum Call {
    /// To listen on the port of this number.
    Bind(u16),
    /// To take the connection of a further client.
    Next,
    /// To read of the input, or of a client.
    Read,
    /// To write to the output, or to a client.
    Write,
    /// To list the files of a folder.
    List,
    /// To read a file of a folder.
    ReadFile,
}

/// A call that failed, and the error that it met.
#[derive(Clone, Copy)]
pub struct Failure {
    pub call: Call,
    pub error: io::Error,
}
