#![tactic(auto)]
// The numbers and types that the planner's crates share, and the warm-up before a start.
ghost use Rattle.std.specs.Prelude.{◌≡◌, ◌<◌, ◌∷◌, ◌++◌, Some};
ghost use Rattle.std.specs.Fmt.{decimal};
ghost use Rattle.rules.specs.Bytes.{bytes};
ghost use Rattle.rules.specs.Refusals.{number_of};
ghost use Rattle.rules.specs.Warmup.{warmup_entry, warmup_at};

use std::fmt::{self, Display};

// The most activities that a plan has, and so the most places.
pub const PLACES: usize = 64;

// The most ticks that a plan has: the greatest horizon.
pub const TICKS: usize = 4096;

// How many conditions there are, and the set of them all.
pub const CONDITIONS: u32 = 9;

pub const ALL_CONDITIONS: u16 = 511;

// How an activity is answered: placed with its start, or refused with its set of conditions. An enum of these two is
// document 01's form.
#[derive(Clone, Copy)]
pub enum Outcome {
    Placed(u32),
    Refused(u32),
}

// Why a file or a call is refused (document 01, When the planner says no; document 02, [2]).
#[derive(Clone, Copy, PartialEq, Eq)]
pub enum Fault {
    TooLong,
    NotFormed,
    Malformed,
    OutOfRange,
    TooMany,
    Repeated,
    Misplaced,
    NotRising,
    OutOfReach,
    NoRoom,
    NoPlace,
    NoSet,
    OutOfWindow,
}

// The number of a fault.
impl From<Fault> for u32 {
    ghost from_gives = { λ fault n. n ≡ number_of fault };

    fn from(fault: Fault) -> u32 {
        match fault {
            Fault::TooLong => 1,
            Fault::NotFormed => 2,
            Fault::Malformed => 3,
            Fault::OutOfRange => 4,
            Fault::TooMany => 5,
            Fault::Repeated => 6,
            Fault::Misplaced => 7,
            Fault::NotRising => 8,
            Fault::OutOfReach => 9,
            Fault::NoRoom => 10,
            Fault::NoPlace => 11,
            Fault::NoSet => 12,
            Fault::OutOfWindow => 13,
        }
    }
}

// A refusal: its fault, and the line that has it. Line 0 is document 01's number for a refusal of no line, and is printed
// and packed, so it is no Option.
#[derive(Clone, Copy)]
pub struct Refusal {
    pub fault: Fault,
    pub line: u32,
}

// The refusal of no line.
impl From<Fault> for Refusal {
    ghost from_gives = { λ fault refused. refused ≡ record { fault = fault; line = 0 } };

    fn from(fault: Fault) -> Refusal {
        Refusal { fault, line: 0 }
    }
}

// Document 01's line of a refusal, without its LF, for the programs that print. `report` writes the same into bytes.
impl Display for Refusal {
    ghost output = { λ refused. Some (bytes "no" ++ 9 ∷ decimal (number_of refused.fault) ++ 9 ∷ decimal refused.line) };

    fn fmt<W: fmt::Write>(&self, f: &mut fmt::Formatter<W>) -> fmt::Result {
        write!(f, "no\t{}\t{}", u32::from(self.fault), self.line)
    }
}

// What the charge projection hands back: the charge at the horizon, the lowest charge, and the first tick that has it
// (document 02, [1]).
#[derive(Clone, Copy)]
pub struct Projection {
    pub last: i64,
    pub lowest: i64,
    pub tick: usize,
}

// A run of starts: its first and its last. It is laid out as in C, for `station`.
#[repr(C)]
#[derive(Clone, Copy)]
pub struct Interval {
    pub first: u32,
    pub last: u32,
}

// w(s): the ticks of warm-up before a start, 0 where warm is 0 (document 01, Warm-up). `minute` is the minute of day of
// tick 0, `warm` document 01's field, a number that is 0 or 1.
pub fn warmup_at(minute: u32, start: u32, warm: u32) -> u32
    ensures { result ≡ warmup_at minute start warm }
{
    if warm == 0 {
        return 0;
    }
    let q = (u64::from(minute) + u64::from(start)) % 1440 / 5;
    warmup_entry(q as u32)
}

// Entry q of document 01's table of warm-ups, by its formula (document 02, [3]): m is the distance from 14:00, the shorter
// way round the day. Not inlined: by itself it is faster (docs/DECISIONS.md).
#[inline(never)]
fn warmup_entry(q: u32) -> u32
    requires { q < 288 }
    ensures { result ≡ warmup_entry q }
{
    let d = q.abs_diff(168);
    let m = d.min(288 - d);
    4 + m / 12
}
