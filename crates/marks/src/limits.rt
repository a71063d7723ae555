// Bytes of a text that are read.
pub const TEXT: usize = 8192;
