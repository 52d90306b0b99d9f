// List fields: items parted by commas, each a number, or two or three with a byte between each two, with the faults 3, 4, 8
// and 13 over the whole field.
ghost use Rattle.std.specs.Prelude.{◌≡◌, ◌≤◌, true, List, [], ◌∷◌, ℕ, IfOk, length};
ghost use Rattle.std.specs.List.{list_all};
ghost use Rattle.rules.specs.Fields.{list_field};
ghost use Rattle.rules.specs.Refusals.{read_as};
ghost use Rattle.text.specs.Text.{numbers_of, item_is, is_item, item_of, item, second_inside, kind_of};
ghost use Rattle.text.specs.Cursor.{items_from};

use crate::number::read_number;
use crate::parts::Parts;
use items::{Item, Items};
use rules::Fault;

// How an item is written: one number, or two or three with this byte between each two.
#[derive(Clone, Copy)]
pub enum Shape {
    One,
    Two(u8),
    Three(u8),
}

// A kind of list: how its items are written; the greatest first number and the greatest of the others; whether an item
// spans its first to its third number, so that its second is between them and the next item begins behind the third; and how
// many items there may be. `spans` picks which numbers are compared; closures in its place would be carried through
// `Fields::list`.
#[derive(Clone, Copy)]
pub struct Form {
    pub shape: Shape,
    pub most_first: u32,
    pub most_others: u32,
    pub spans: bool,
    pub most: usize,
}

// The K numbers with the byte `mark` between each two that all of s is.
fn read_numbers<const K: usize>(s: &[u8], mark: u8) -> Option<[u64; K]>
    ensures { result ≡ numbers_of K mark s.now }
{
    let mut numbers = [0; K];
    let mut parts = Parts::of(s, mark);
    for number in &mut numbers {
        *number = read_number(parts.next()?)?;
    }
    match parts.next() {
        Some(_) => None,
        None => Some(numbers),
    }
}

// The three numbers of the item that all of s is.
fn read_item(s: &[u8], shape: Shape) -> Option<(u64, u64, u64)>
    ensures { result ≡ item_is shape s.now }
{
    match shape {
        Shape::One => {
            let a = read_number(s)?;
            Some((a, a, a))
        }
        Shape::Two(mark) => {
            let [a, b] = read_numbers::<2>(s, mark)?;
            Some((a, b, b))
        }
        Shape::Three(mark) => {
            let [a, b, c] = read_numbers::<3>(s, mark)?;
            Some((a, b, c))
        }
    }
}

// Whether the second number of each item is from its first to its third.
#[tactic(auto, unfolding(rules::specs::Fields::within))]
fn are_inside(items: &[Item]) -> bool
    ensures { result ≡ list_all second_inside items.now }
{
    items.iter().all(|item| item.first <= item.second && item.second <= item.third)
}

// What was read of a list: the fault of an item out of range or, where there is none, of one that did not rise or was too many;
// the least that may follow; and the items.
#[derive(Drop)]
struct Tally<const N: usize> {
    fault: Option<Fault>,
    least: u64,
    items: Items<N>,
    ghost few: { length items ≤ N },
}

impl<const N: usize> Tally<N> {
    // One more item, a, b and c.
    fn count_in(&mut self, a: u64, b: u64, c: u64, form: Form)
        requires { (form.most ≤ N) × (length self.old.items ≤ form.most) }
        ensures few { length self.new.items ≤ form.most }
        ensures value { (p : List ℕ) (ps : List (List ℕ)) → is_item form.shape p ≡ true → item_of form.shape p ≡ item a b c → items_from (kind_of form) self.old.fault self.old.least self.old.items (p ∷ ps) ≡ items_from (kind_of form) self.new.fault self.new.least self.new.items ps }
    {
        if u64::from(form.most_first) < a || u64::from(form.most_others) < b.max(c) {
            self.fault = Some(Fault::OutOfRange);
            return;
        }
        let high = if form.spans { c } else { a };
        if a < self.least || high < a || form.most <= self.items.len() {
            self.fault = self.fault.or(Some(Fault::NotRising));
            return;
        }
        self.items.push(Item {
            first: a as u32,
            second: b as u32,
            third: c as u32,
        });
        self.least = high + 1;
    }

    // What the whole list says, once its last item is counted in.
    fn finish(self, form: Form) -> Result<Items<N>, Fault>
        requires { length self.items ≤ form.most }
        ensures value { read_as (λ xs. xs) result ≡ items_from (kind_of form) self.entry.fault self.entry.least self.entry.items [] }
        ensures within { IfOk result (λ items. length items ≤ form.most) }
    {
        if let Some(fault) = self.fault {
            return Err(fault);
        }
        if form.spans && !are_inside(self.items.as_slice()) {
            return Err(Fault::OutOfWindow);
        }
        Ok(self.items)
    }
}

// The list field s of this form.
pub fn read_list<const N: usize>(s: &[u8], form: Form) -> Result<Items<N>, Fault>
    // Calls that change a tally owe that its size is below 2 ^ 63.
    requires { (form.most ≤ N) × (N ≤ 32) }
    ensures value { read_as (λ xs. xs) result ≡ list_field (kind_of form) s.now }
    ensures within { IfOk result (λ items. length items ≤ form.most) }
{
    if s == b"-".as_slice() {
        return Ok(Items::new());
    }
    let mut tally = Tally {
        fault: None,
        least: 0,
        items: Items::new(),
    };
    for part in Parts::of(s, b',') {
        let Some((a, b, c)) = read_item(part, form.shape) else {
            return Err(Fault::Malformed);
        };
        tally.count_in(a, b, c, form);
    }
    tally.finish(form)
}
