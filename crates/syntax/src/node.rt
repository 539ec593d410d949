// The kinds of nodes. Of a compiled rule, as specs/Compiled.antt lists them:
pub const BYTE: u32 = 0;

pub const ASSERTION: u32 = 1;

pub const OPEN: u32 = 3;

pub const CLOSE: u32 = 4;

pub const BRANCH: u32 = 5;

pub const LAST: u32 = 6;

pub const REPEAT: u32 = 7;

pub const AGAIN: u32 = 8;

pub const END: u32 = 9;

pub const RUN: u32 = 10;

pub const REFERENCE: u32 = 11;

pub const BREAK: u32 = 12;

pub const MARK: u32 = 13;

pub const KEEP: u32 = 14;

pub const RETURN: u32 = 15;

pub const FORBID: u32 = 16;

pub const REFUTE: u32 = 17;

// Of a rule that is being read, until it is linked; the other kinds are the same.
pub const NAMED: u32 = 2;

pub const PLAIN: u32 = 10;

pub const HELD: u32 = 14;

pub const AHEAD: u32 = 15;

pub const NOT_AHEAD: u32 = 17;

// the numbers of the longest node
pub const NODE_LENGTH: usize = 11;

// the maximum of a repeat that has none
pub const UNLIMITED: u32 = 4294967295;
