// The runs of starts that meet a set of conditions.
ghost use Rattle.std.specs.Prelude.{◌≡◌};
ghost use Rattle.explanation.specs.Places.{run_text, run_texts, runs_text, runs_line};
ghost use Rattle.explanation.specs.Tabled.{runs_in};
ghost use Rattle.wording.specs.Writing.{written, with_more};

use rules::Interval;
use schedule::runs::Runs;
use schedule::table::Table;
use wording::writing::Part;

// Writes a run of starts.
#[tactic(auto, using(std::proofs::lemmas::Grind::common_steps, wording::proofs::Pieces::more_then), unfolding(crate::specs::Places::run_text))]
fn put_run(out: &mut Part, run: Interval)
    ensures { written out.new ≡ with_more (written out.old) (run_text run) }
{
    out.push(b" ");
    out.push_number(u64::from(run.first));
    out.push(b"-");
    out.push_number(u64::from(run.last));
}

// Writes the runs that are left.
#[tactic(auto, using(std::proofs::lemmas::Grind::common_steps, wording::proofs::Pieces::more_then, wording::proofs::Pieces::more_none), unfolding(crate::specs::Places::run_texts))]
fn put_each_run(out: &mut Part, runs: Runs)
    ensures { written out.new ≡ with_more (written out.old) (run_texts runs.entry) }
{
    for run in runs {
        put_run(out, run);
    }
}

// Writes the runs of starts that meet the set, or that there is none.
#[tactic(auto, using(std::proofs::lemmas::Grind::common_steps, wording::proofs::Pieces::more_then), unfolding(crate::specs::Places::runs_text, crate::specs::Places::run_texts))]
fn put_runs(out: &mut Part, table: &Table, set: u16)
    ensures { written out.new ≡ with_more (written out.old) (runs_text (runs_in table.now.sets.now set)) }
{
    let mut runs = Runs::new(table, set);
    let Some(first) = runs.next() else {
        return out.push(b" none");
    };
    put_run(out, first);
    put_each_run(out, runs);
}

// Writes a line of the runs of starts that meet the set, behind these words. The set stays an argument: `put_letter` asks
// one table for two.
#[tactic(auto, using(std::proofs::lemmas::Grind::common_steps, wording::proofs::Pieces::more_then), unfolding(crate::specs::Places::runs_line))]
pub fn put_runs_line(out: &mut Part, words: &[u8], table: &Table, set: u16)
    ensures { written out.new ≡ with_more (written out.old) (runs_line words.now (runs_in table.now.sets.now set)) }
{
    out.push(words);
    put_runs(out, table, set);
    out.push(b"\n");
}
