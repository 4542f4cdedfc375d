// The sizes of a file's headers.

/// How many bytes the binary file header has, which follows the textual file header.
pub const BINARY_HEADER_BYTES: usize = 400;

/// How many bytes both file headers have, in front of the extended textual file headers.
pub const FILE_HEADER_BYTES: usize = 3600;
