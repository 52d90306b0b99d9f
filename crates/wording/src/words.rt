// What a refusal, a condition and a line's field are, in words.
ghost use Rattle.std.specs.Prelude.{◌≡◌};
ghost use Rattle.wording.specs.Words.{refusal_words, condition_words, plan_field_words, act_field_words};
ghost use Rattle.wording.specs.Words.{line_words, field_words};

// What the refusal of this number is; no words for those of a call, which no file has, nor for numbers that are none.
#[tactic(auto, unfolding(crate::specs::Words::refusal_words))]
pub fn refusal_words(number: u32) -> &'static [u8]
    ensures { result.now ≡ refusal_words number }
{
    match number {
        1 => b"the file has more than 60000 bytes",
        2 => b"the first word or the number of fields is wrong, or the line does not end in LF",
        3 => b"a number or an item of a list is not written as it must be, or the field is empty",
        4 => b"a number is out of its range",
        5 => b"this is the 65th activity line, and a plan has at most 64",
        6 => b"an earlier line has the same id",
        7 => b"after names an id that no activity at an earlier place has",
        8 => b"the list does not rise, a window ends before it begins, or there are too many items",
        9 => b"with nothing placed, the charge at the horizon is under the handover charge",
        13 => b"a preferred tick lies outside its window",
        _ => b"",
    }
}

// What the condition of this number asks. By its number, as a set has it for its bit: an enum would be the nine once more.
#[tactic(auto, unfolding(crate::specs::Words::condition_words))]
pub fn condition_words(condition: u32) -> &'static [u8]
    ensures { result.now ≡ condition_words condition }
{
    match condition {
        0 => b"the start is in one of its windows",
        1 => b"each activity in after is placed and ends by the start",
        2 => b"no placed activity that shares a unit holds one of its ticks",
        3 =>
            b"every need, its own and those of the placed, is met in each tick that its activity holds",
        4 => b"in every tick the engines sum to at most those of the plan",
        5 => b"in every tick the peaks sum to at most the peak limit",
        6 => b"the charge keeps the floor, and the handover charge at the horizon",
        7 => b"the volumes sum to at most the volume limit",
        8 => b"the warm-up begins at tick 0 or later",
        _ => b"",
    }
}

// What this field of the first line must be. By its number, which is its place in the line and is written: an enum would be
// these twelve once more.
#[tactic(auto, unfolding(crate::specs::Words::plan_field_words))]
fn plan_field_words(field: u32) -> &'static [u8]
    ensures { result.now ≡ plan_field_words field }
{
    match field {
        0 => b"plan",
        1 => b"horizon, 1 to 4096",
        2 => b"minute of day at tick 0, 0 to 1439",
        3 => b"capacity, 1 to 1000000000",
        4 => b"floor, 0 to the capacity",
        5 => b"first charge, the floor to the capacity",
        6 => b"charging rate, 0 to 1000000",
        7 => b"handover charge, 0 to the capacity",
        8 => b"engines, 0 to 64",
        9 => b"peak limit, 0 to 1000000",
        10 => b"volume limit, 0 to 1000000000",
        11 => b"heater draw, 0 to 1000000",
        _ => b"",
    }
}

// What this field of an activity's line must be, by its number in the same way. A table of its own: the two have no row in
// common.
#[tactic(auto, unfolding(crate::specs::Words::act_field_words))]
fn act_field_words(field: u32) -> &'static [u8]
    ensures { result.now ≡ act_field_words field }
{
    match field {
        0 => b"act",
        1 => b"id, 0 to 65535",
        2 => b"priority, 0 to 65535",
        3 => b"duration, 1 to the horizon",
        4 => b"preferred tick, 0 to 4095",
        5 =>
            b"windows, - or up to 4 of the form a:p:b, 0 to 4095, each a at most its b and above the b before, each p from its a to its b",
        6 => b"after, - or up to 8 ids, 0 to 65535, rising",
        7 => b"units, - or up to 32 numbers, 0 to 31, rising",
        8 => b"needs, - or up to 4 of the form v=k, v 0 to 7 and rising, k 0 to 255",
        9 => b"sets, - or up to 4 of the form v=k, v 0 to 7 and rising, k 0 to 255",
        10 => b"engines, 0 to 64",
        11 => b"peak, 0 to 1000000",
        12 => b"draw, 0 to 1000000",
        13 => b"volume, 0 to 1000000000",
        14 => b"warm, 0 or 1",
        _ => b"",
    }
}

// What this field of a line must be. By the line's number, which says what it is: line 1 alone is the plan's.
#[tactic(auto, unfolding(crate::specs::Words::field_words))]
pub fn field_words(line: u32, field: u32) -> &'static [u8]
    ensures { result.now ≡ field_words line field }
{
    if line == 1 {
        plan_field_words(field)
    } else {
        act_field_words(field)
    }
}

// What a line must be, by its number in the same way.
#[tactic(auto, unfolding(crate::specs::Words::line_words, crate::specs::Words::plan_line_words, crate::specs::Words::act_line_words))]
pub fn line_words(line: u32) -> &'static [u8]
    ensures { result.now ≡ line_words line }
{
    if line == 1 {
        b"12 fields parted by one tab each, the first of them plan, and LF at the end"
    } else {
        b"15 fields parted by one tab each, the first of them act, and LF at the end"
    }
}
