// How long a script and its lines may be.

/// The greatest number of bytes of a line before its LF.
pub const LONGEST_LINE: usize = 65_536;

/// The greatest number of bytes of a script.
pub const LONGEST_SCRIPT: usize = 16_777_216;
