// Where things stand in the memory: a head, and behind it one record for each ground, by rising numbers. Places and no structs: the memory is lent as numbers, and
// there is no heap in it.

// So many numbers of 64 bits.
pub const MEMORY_LENGTH: usize = 262144;

pub(crate) type Memory = [u64; MEMORY_LENGTH];

pub const MOST_GROUNDS: u64 = 1024;

pub const MOST_CORNERS: u64 = 32768;

// The head, with room for more.
pub const HEAD_LENGTH: usize = 16;

// How many grounds there are, and how many corners they have in all.
pub const AT_GROUNDS: usize = 0;

pub const AT_CORNERS: usize = 1;

// The cursor of a listing: the record that it goes on with, or 0 where none is open; how many records it has yet to look at; the point.
pub const AT_CURSOR: usize = 2;

pub const AT_LEFT: usize = 3;

pub const AT_A: usize = 4;

pub const AT_B: usize = 5;

pub const AT_W: usize = 6;

// A record: the ground's number, how many corners it has, its box, two numbers to spare, and then the corners, two numbers each.
pub const RECORD_LENGTH: usize = 8;

pub const COUNT_IN_RECORD: usize = 1;

pub const WEST_IN_RECORD: usize = 2;

pub const SOUTH_IN_RECORD: usize = 3;

pub const EAST_IN_RECORD: usize = 4;

pub const NORTH_IN_RECORD: usize = 5;
