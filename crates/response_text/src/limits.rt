// The limit of responses.

/// The most bytes of a response.
pub const MAX_RESPONSE_BYTES: u64 = 1_048_576;
