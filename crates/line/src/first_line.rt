// The first line of a plan.
ghost use Rattle.std.specs.Prelude.{◌≡◌};
ghost use Rattle.rules.specs.HeaderLine.{header_of};
ghost use Rattle.rules.specs.Lines.{split_on};
ghost use Rattle.rules.specs.Refusals.{read_as};
ghost use Rattle.activity.specs.View.{header_view};

use crate::fields::Fields;
use activity::Header;
use rules::Fault;

// What the line l says as a plan's first line.
#[tactic(auto, using(crate::proofs::Steps::reading_on), unfolding(rules::specs::HeaderLine::header_of, rules::specs::Refusals::read_as, activity::specs::View::header_view))]
pub fn read_header(l: &[u8]) -> Result<Header, Fault>
    ensures { read_as header_view result ≡ header_of (split_on 9 l.now) }
{
    let mut fields = Fields::of(l);
    // The word.
    fields.next();
    let horizon = fields.number(1, 4096)?;
    let minute = fields.number(0, 1439)?;
    let capacity = fields.number(1, 1_000_000_000)?;
    let floor = fields.number(0, capacity)?;
    Ok(Header {
        horizon,
        minute,
        capacity,
        floor,
        first: fields.number(floor, capacity)?,
        rate: fields.number(0, 1_000_000)?,
        handover: fields.number(0, capacity)?,
        engines: fields.number(0, 64)?,
        peak: fields.number(0, 1_000_000)?,
        volume: fields.number(0, 1_000_000_000)?,
        heater: fields.number(0, 1_000_000)?,
    })
}
