// The base of the trials.
ghost use Rattle.std.specs.Prelude.{◌≡◌, ◌≤◌, true};
ghost use Rattle.rules.specs.MeetsB.{projected};
ghost use Rattle.charge.specs.Charge.{at_tick, charge_by, kept_by, Charges};
ghost use Rattle.trial.specs.Trial.{spare_of};

use charge::sums::Drawn;

// What is drawn with the placed alone, which keep the charge; the charge at each tick, and what it can spare.
#[derive(Drop)]
pub struct Base<'a> {
    pub drawn: Drawn<'a>,
    pub charges: &'a [i64],
    pub spare: i64,
    ghost first: { drawn.header.first ≤ drawn.header.capacity },
    ghost kept: { kept_by drawn.header (at_tick drawn.draws.now) ≡ true },
    ghost charges_are: { Charges drawn.header (at_tick drawn.draws.now) charges.now },
    ghost spared: { spare ≡ spare_of drawn.header (projected (charge_by drawn.header (at_tick drawn.draws.now)) drawn.header.horizon) },
}
