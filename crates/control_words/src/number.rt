// The number that refuses a start.

// 15: a start address with fewer than two words left
pub const NO_ROOM_TO_START: u16 = 15;
