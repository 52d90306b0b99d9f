#![tactic(auto)]
// The charge: what is drawn in each tick, the charge projection, and refusal 9.
pub mod draws;
pub mod own;
pub mod run;
pub mod sums;

ghost use Rattle.std.specs.Prelude.{◌≡◌};
ghost use Rattle.rules.specs.WellFormed.{HeaderFormed};
ghost use Rattle.rules.specs.MeetsB.{projected};
ghost use Rattle.rules.specs.Reading.{out_of_reach};
ghost use Rattle.activity.specs.View.{header_view};
ghost use Rattle.placed.specs.Bounds.{AmountsBounded};
ghost use Rattle.charge.specs.Charge.{drawn_in, charge_by};

use activity::Header;
use draws::add_placed;
use placed::Placed;
use rules::{Projection, TICKS};
use run::{CHARGES, project};
use sums::Drawn;

// The charge projection with the placed alone.
pub fn charge_projection(header: Header, placed: &Placed) -> Projection
    requires amounts_bounded { AmountsBounded placed.now.rows placed.now.count }
    requires header_formed { HeaderFormed (header_view header) }
    ensures { result ≡ projected (charge_by header (drawn_in header placed.now.rows placed.now.count)) header.horizon }
{
    let mut draws = [0u32; TICKS];
    add_placed(header, placed, &mut draws);
    let drawn = Drawn {
        header,
        draws: &draws,
    };
    let mut charges = [0i64; CHARGES];
    project(&drawn, &mut charges)
}

// Refusal 9: whether the charge at the horizon with nothing placed is under the handover charge. Its arrays are to leave the
// stack before the next call.
#[inline(never)]
pub fn out_of_reach(header: Header) -> bool
    requires { HeaderFormed (header_view header) }
    ensures { result ≡ out_of_reach (header_view header) }
{
    let draws = [0u32; TICKS];
    let drawn = Drawn {
        header,
        draws: &draws,
    };
    let mut charges = [0i64; CHARGES];
    project(&drawn, &mut charges).last < i64::from(header.handover)
}
