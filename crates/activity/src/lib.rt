#![tactic(auto)]
// A plan's first line and an activity line, as the code holds them (document 01, The plan file).
use items::Items;

// The first line's numbers. That they are within their ranges (`HeaderFormed`) is asked for where it is needed: in the type
// it would ask more of callers, as of `line::activity_line::read_activity`.
#[derive(Clone, Copy)]
pub struct Header {
    pub horizon: u32,
    pub minute: u32,
    pub capacity: u32,
    pub floor: u32,
    pub first: u32,
    pub rate: u32,
    pub handover: u32,
    pub engines: u32,
    pub peak: u32,
    pub volume: u32,
    pub heater: u32,
}

// An activity line. A window has its first start, its preferred tick and its last start, a need or a set its variable and value,
// an id or a unit its number.
#[derive(Clone, Copy)]
pub struct Activity {
    pub id: u32,
    pub priority: u32,
    pub duration: u32,
    pub preferred: u32,
    pub windows: Items<4>,
    pub after: Items<8>,
    pub units: Items<32>,
    pub needs: Items<4>,
    pub sets: Items<4>,
    pub engines: u32,
    pub peak: u32,
    pub draw: u32,
    pub volume: u32,
    pub warm: u32,
}
