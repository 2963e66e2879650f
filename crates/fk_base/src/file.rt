/// The greatest length of a file that is read, in bytes.
pub const FILE_LIMIT: usize = 1_048_576;
