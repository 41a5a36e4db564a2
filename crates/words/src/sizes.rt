// A size that several layers name.

// The bytes of a record.
pub const RECORD_BYTES: usize = 80;
