// The bytes that a rule gives a meaning, as numbers to compare with the byte at a position.
pub const OPENING_BRACE: u32 = b'{' as u32;

pub const CLOSING_BRACE: u32 = b'}' as u32;

pub const LESS: u32 = b'<' as u32;

pub const APOSTROPHE: u32 = b'\'' as u32;

pub const CLOSING_BRACKET: u32 = b']' as u32;

pub const COLON: u32 = b':' as u32;

pub const CARET: u32 = b'^' as u32;

pub const MINUS: u32 = b'-' as u32;

// Past the end of a rule.
pub const END: u32 = 256;
