//! Two requests and their answers.

/// A change of the local networks, whose own moment is 5.
pub(crate) const LOCALS: &[u8] =
    b"PUT /locals HTTP/1.1\r\nMud-Moment: 5\r\nContent-Length: 29\r\n\r\n{\"prefixes\":[\"192.0.2.0/24\"]}";

/// A class that is bound, at 6.
pub(crate) const CLASS: &[u8] =
    b"POST /classes HTTP/1.1\r\nMud-Moment: 6\r\nContent-Length: 58\r\n\r\n{\"address\":\"192.0.2.53\",\"class\":\"urn:ietf:params:mud:dns\"}";

/// The answer to the first one, as it is written: the head and then the body.
pub(crate) const SET_HEAD: &[u8] =
    b"HTTP/1.1 200 OK\r\nContent-Type: application/json\r\nContent-Length: 16\r\n\r\n";

pub(crate) const SET_BODY: &[u8] = b"{\"result\":\"set\"}";

/// The answer to the second one.
pub(crate) const BOUND_HEAD: &[u8] =
    b"HTTP/1.1 200 OK\r\nContent-Type: application/json\r\nContent-Length: 18\r\n\r\n";

pub(crate) const BOUND_BODY: &[u8] = b"{\"result\":\"bound\"}";

/// The answer to a change that couldn't be kept.
pub(crate) const UNKEPT: &[u8] =
    b"HTTP/1.1 503 Service Unavailable\r\nContent-Type: application/json\r\nContent-Length: 17\r\n\r\n{\"rule\":\"keeper\"}";
