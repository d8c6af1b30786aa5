//! The statuses of answers.
ghost use Rattle.std.specs.Prelude.{◌≡◌, ◌<◌, ◌≤◌};
ghost use Rattle.console_answers.specs.Statuses as spec;

/// A status of an answer (RFC 9110, 15; RFC 4918, 11.5).
#[derive(Clone, Copy)]
pub enum Status {
    /// 200
    Done,
    /// 400
    BadRequest,
    /// 404
    NotFound,
    /// 405
    MethodNotAllowed,
    /// 409
    Conflict,
    /// 411
    LengthRequired,
    /// 413
    TooLarge,
    /// 422
    Unprocessable,
    /// 501
    NotImplemented,
    /// 503
    Unavailable,
    /// 507
    NoStorage,
}

impl Status {
    /// The number of the status, of three digits.
    #[tactic(auto, unfolding(crate::specs::Statuses::number_of))]
    pub fn number(self) -> u16
        ensures value { result ≡ spec.number_of self }
        ensures least { 100 ≤ result }
        ensures most { result < 1000 }
    {
        match self {
            Status::Done => 200,
            Status::BadRequest => 400,
            Status::NotFound => 404,
            Status::MethodNotAllowed => 405,
            Status::Conflict => 409,
            Status::LengthRequired => 411,
            Status::TooLarge => 413,
            Status::Unprocessable => 422,
            Status::NotImplemented => 501,
            Status::Unavailable => 503,
            Status::NoStorage => 507,
        }
    }

    /// The phrase of the status.
    #[tactic(auto, unfolding(crate::specs::Statuses::phrase_of))]
    pub(crate) fn phrase(self) -> &'static str
        ensures { result.now ≡ spec.phrase_of self }
    {
        match self {
            Status::Done => "OK",
            Status::BadRequest => "Bad Request",
            Status::NotFound => "Not Found",
            Status::MethodNotAllowed => "Method Not Allowed",
            Status::Conflict => "Conflict",
            Status::LengthRequired => "Length Required",
            Status::TooLarge => "Payload Too Large",
            Status::Unprocessable => "Unprocessable Entity",
            Status::NotImplemented => "Not Implemented",
            Status::Unavailable => "Service Unavailable",
            Status::NoStorage => "Insufficient Storage",
        }
    }
}
