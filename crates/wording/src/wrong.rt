// Which field of a line is the first that is wrong.
ghost use Rattle.std.specs.Prelude.{◌≡◌, ◌≤◌, length, not, position};
ghost use Rattle.rules.specs.Lines.{split_on, field};
ghost use Rattle.rules.specs.Fields.{number_field, list_field};
ghost use Rattle.text.specs.Text.{kind_of};
ghost use Rattle.wording.specs.FirstWrong.{is_read, read_number, plan_fields, act_fields, first_wrong, field_in};

use line::activity_line::{numbers, settings, windows};
use line::fields::number_in;
use text::field::field_at;
use text::list::{Form, read_list};

// The number from lo to hi that field k of the line l is, or 0 where it is none: the fields behind it are judged by 0 then
// (`plan_fields`), so that an Option would be made 0 at each use.
#[tactic(auto, unfolding(crate::specs::FirstWrong::read_number, rules::specs::Refusals::read_as))]
fn number_at(l: &[u8], k: usize, lo: u32, hi: u32) -> u32
    ensures { result ≡ read_number (number_field lo hi (field (split_on 9 l.now) k)) }
{
    number_in(field_at(l, k), lo, hi).unwrap_or(0)
}

// Whether field k of the line l is a number from lo to hi.
#[tactic(auto, unfolding(crate::specs::FirstWrong::is_read, rules::specs::Refusals::read_as))]
fn is_number(l: &[u8], k: usize, lo: u32, hi: u32) -> bool
    ensures { result ≡ is_read (number_field lo hi (field (split_on 9 l.now) k)) }
{
    number_in(field_at(l, k), lo, hi).is_ok()
}

// Whether it is a list of this form.
#[tactic(auto, unfolding(crate::specs::FirstWrong::is_read, rules::specs::Refusals::read_as))]
fn is_list<const N: usize>(l: &[u8], k: usize, form: Form) -> bool
    requires { (form.most ≤ N) × (N ≤ 32) }
    ensures { result ≡ is_read (list_field (kind_of form) (field (split_on 9 l.now) k)) }
{
    read_list::<N>(field_at(l, k), form).is_ok()
}

// The index of the first that is not right.
fn first_not(right: &[bool]) -> Option<usize>
    ensures { result ≡ position not right.now }
{
    right.iter().position(|right| !right)
}

// The number of the first field that is not right, counted from 1.
#[tactic(auto, using(crate::proofs::FirstWrong::wrong_at))]
fn first_wrong(right: &[bool]) -> Option<u32>
    requires { length right.now ≤ 32 }
    ensures { result ≡ field_in (first_wrong 1 right.now) }
{
    let i = first_not(right)?;
    Some(i as u32 + 1)
}

// The first wrong field of a plan's first line.
#[tactic(auto, unfolding(crate::specs::FirstWrong::plan_fields))]
pub fn wrong_in_plan(l: &[u8]) -> Option<u32>
    ensures { result ≡ field_in (first_wrong 1 (plan_fields (split_on 9 l.now))) }
{
    let capacity = number_at(l, 3, 1, 1_000_000_000);
    let floor = number_at(l, 4, 0, capacity);
    first_wrong(&[
        is_number(l, 1, 1, 4096),
        is_number(l, 2, 0, 1439),
        is_number(l, 3, 1, 1_000_000_000),
        is_number(l, 4, 0, capacity),
        is_number(l, 5, floor, capacity),
        is_number(l, 6, 0, 1_000_000),
        is_number(l, 7, 0, capacity),
        is_number(l, 8, 0, 64),
        is_number(l, 9, 0, 1_000_000),
        is_number(l, 10, 0, 1_000_000_000),
        is_number(l, 11, 0, 1_000_000),
    ])
}

// The same of an activity's line in a plan of this horizon.
#[tactic(auto, using(crate::proofs::FirstWrong::windows_read, crate::proofs::FirstWrong::settings_read, crate::proofs::FirstWrong::numbers_read), unfolding(crate::specs::FirstWrong::act_fields))]
pub fn wrong_in_act(l: &[u8], horizon: u32) -> Option<u32>
    ensures { result ≡ field_in (first_wrong 1 (act_fields horizon (split_on 9 l.now))) }
{
    first_wrong(&[
        is_number(l, 1, 0, 65535),
        is_number(l, 2, 0, 65535),
        is_number(l, 3, 1, horizon),
        is_number(l, 4, 0, 4095),
        is_list::<4>(l, 5, windows()),
        is_list::<8>(l, 6, numbers(65535, 8)),
        is_list::<32>(l, 7, numbers(31, 32)),
        is_list::<4>(l, 8, settings()),
        is_list::<4>(l, 9, settings()),
        is_number(l, 10, 0, 64),
        is_number(l, 11, 0, 1_000_000),
        is_number(l, 12, 0, 1_000_000),
        is_number(l, 13, 0, 1_000_000_000),
        is_number(l, 14, 0, 1),
    ])
}

// The horizon that a first line says, or 0, as `number_at`.
pub fn horizon_in(l: &[u8]) -> u32
    ensures { result ≡ read_number (number_field 1 4096 (field (split_on 9 l.now) 1)) }
{
    number_at(l, 1, 1, 4096)
}
