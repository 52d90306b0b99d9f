// Fixed words.

// The word of a plan's first line.
pub const PLAN: [u8; 4] = *b"plan";
// The word of an activity's line.
pub const ACT: [u8; 3] = *b"act";
// The word of a report's line for an activity that is placed.
pub const PLACED: [u8; 6] = *b"placed";
// The word of a report's line for an activity that is refused.
pub const REFUSED: [u8; 7] = *b"refused";
