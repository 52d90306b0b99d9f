// The calls of starts.
ghost use Rattle.std.specs.Prelude.{◌≤◌};

use super::answer::{self, fault_of, left_from};
use rules::{ALL_CONDITIONS, Refusal};
use std::io;

// The sets asked, as many from the front as a record says.
const SETS: [u32; 29] = [
    511, 0, 1, 2, 4, 8, 16, 32, 64, 128, 256, 510, 509, 507, 503, 495, 479, 447, 383, 255, 3, 12,
    48, 192, 73, 292, 219, 438, 512,
];

// How many numbers are lent, and what each holds before a call; no start is as late.
const ROOM: usize = 64;

const MARK: u32 = 77777;

// Checks that the records from `from` on are as they were lent.
fn check_left(rt: &impl Print, firsts: &[u32], lasts: &[u32], from: usize) -> io::Result<()> {
    if !left_from(firsts, from, MARK) {
        answer::wrong(rt, "the firsts behind the runs")?;
    }
    if !left_from(lasts, from, MARK) {
        answer::wrong(rt, "the lasts behind the runs")?;
    }
    Ok(())
}

// Writes the first `count` runs.
fn put_runs(rt: &impl Print, firsts: &[u32], lasts: &[u32], count: usize) -> io::Result<()> {
    for (first, last) in firsts.iter().zip(lasts).take(count) {
        print!(rt; "\t{first}:{last}")?;
    }
    Ok(())
}

// Prints the runs of starts that meet a set.
fn answer_starts(rt: &impl Print, plan: &[u8], place: usize, set: u32) -> io::Result<()> {
    let mut firsts = [MARK; ROOM];
    let mut lasts = [MARK; ROOM];
    let answer = calls::starts(plan, place, set, &mut firsts, &mut lasts);
    // A refusal writes no run.
    let count = answer.unwrap_or(0);
    print!(rt; "starts\t{place}\t{set}")?;
    answer::put_count(rt, answer)?;
    put_runs(rt, &firsts, &lasts, count)?;
    println!(rt; "")?;
    check_left(rt, &firsts, &lasts, count)
}

// Prints them for the first `sets` sets, behind the last for no condition. By number: a record may ask more sets than there
// are, and std's `chain` and `repeat` are no plainer.
pub fn answer_sets(rt: &impl Print, plan: &[u8], place: usize, sets: u64) -> io::Result<()> {
    for k in 0..sets {
        let set = SETS.get(k as usize).copied().unwrap_or(0);
        answer_starts(rt, plan, place, set)?;
    }
    Ok(())
}

// Calls starts for every condition into this room, and checks that it writes nothing.
fn starts_into(
    rt: &impl Print,
    plan: &[u8],
    place: usize,
    firsts_room: usize,
    lasts_room: usize,
) -> io::Result<Result<usize, Refusal>>
    requires { (firsts_room ≤ ROOM) × (lasts_room ≤ ROOM) }
{
    let mut firsts = [MARK; ROOM];
    let mut lasts = [MARK; ROOM];
    let set = u32::from(ALL_CONDITIONS);
    let answer = calls::starts(
        plan,
        place,
        set,
        &mut firsts[..firsts_room],
        &mut lasts[..lasts_room],
    );
    check_left(rt, &firsts, &lasts, 0)?;
    Ok(answer)
}

// Prints the answer of starts for every condition into no records, which is also the answer into room for only the firsts
// or the lasts.
pub fn answer_short(rt: &impl Print, plan: &[u8], place: usize) -> io::Result<()> {
    let answer = starts_into(rt, plan, place, 0, 0)?;
    print!(rt; "short\t{place}")?;
    answer::put_count(rt, answer)?;
    println!(rt; "")?;
    if fault_of(starts_into(rt, plan, place, ROOM, 0)?) != fault_of(answer) {
        answer::wrong(rt, "the refusal of starts with no room for the lasts")?;
    }
    if fault_of(starts_into(rt, plan, place, 0, ROOM)?) != fault_of(answer) {
        answer::wrong(rt, "the refusal of starts with no room for the firsts")?;
    }
    Ok(())
}
