//! How connections end.

/// How the service of a connection ended.
#[derive(Clone, Copy)]
pub enum ConnectionEnd {
    /// The octets ended between two requests.
    Ended,
    /// A request closed the connection, and was answered.
    Closed,
    /// A fault of the framing ended it, and was answered.
    Broken,
    /// The last request that is answered on one connection was answered.
    Spent,
    /// A read failed. The door's count of failed reads rose.
    ReadFailed,
    /// A write failed. The door's count of failed writes rose.
    WriteFailed,
}
