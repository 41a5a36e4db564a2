// The numbers that refuse, by name. Document 01, "Numbers that refuse", in its order, and then those of document 02.

// 1: RAM is neither 4,096 nor 65,536 words
pub const RAM_LENGTH: u16 = 1;
// 2: reply buffer under 33 words
pub const REPLY_ROOM: u16 = 2;
// 3: RT address over 30 (31 with broadcast off), or stack size not listed
pub const BAD_SETTINGS: u16 = 3;
// 4: record is not 80 bytes
pub const RECORD_LENGTH: u16 = 4;
// 5: record breaks its layout
pub const RECORD_LAYOUT: u16 = 5;
// 6: not own address and not 31
pub const OTHER_ADDRESS: u16 = 6;
// 7: subaddress 0 or 31
pub const MODE_SUBADDRESS: u16 = 7;
// 8: stack unsound
pub const UNSOUND_STACK: u16 = 8;
// 9: the message's cell unsound
pub const UNSOUND_CELL: u16 = 9;
// 10: going back to a short record would lose the tag's upper half or the member number
pub const GOING_BACK_LOSES: u16 = 10;
// 11: the count of the message's cell is at its largest value
pub const COUNT_FULL: u16 = 11;
// 12: an address beyond the RAM
pub const ADDRESS_BEYOND: u16 = 12;
