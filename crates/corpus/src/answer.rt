// The lines of the answers.
use rules::{Fault, Outcome, Refusal};
use std::io;

// Writes a line that says what a call has done wrong.
pub fn wrong(rt: &impl Print, what: &str) -> io::Result<()> {
    println!(rt; "wrong\t{what}")
}

// Whether every item from `from` on is as it was lent.
pub fn left_from<T: PartialEq + Copy>(lent: &[T], from: usize, mark: T) -> bool {
    lent.iter().skip(from).all(|item| *item == mark)
}

// Why a call was refused.
pub fn fault_of(answer: Result<usize, Refusal>) -> Option<Fault> {
    answer.err().map(|refusal| refusal.fault)
}

// Writes a count, or the refusal.
pub fn put_count(rt: &impl Print, answer: Result<usize, Refusal>) -> io::Result<()> {
    match answer {
        Ok(count) => print!(rt; "\t{count}"),
        Err(refusal) => print!(rt; "\t{refusal}"),
    }
}

// Writes the line of the outcome at a place.
pub fn put_outcome(
    rt: &impl Print,
    place: usize,
    answer: Result<Outcome, Refusal>,
) -> io::Result<()> {
    print!(rt; "outcome\t{place}")?;
    match answer {
        Ok(Outcome::Placed(start)) => print!(rt; "\tplaced\t{start}"),
        Ok(Outcome::Refused(set)) => print!(rt; "\trefused\t{set}"),
        Err(refusal) => print!(rt; "\t{refusal}"),
    }?;
    println!(rt; "")
}
