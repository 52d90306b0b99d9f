// What the charges with the placed alone can spare.
ghost use Rattle.std.specs.Prelude.{◌≡◌, true};
ghost use Rattle.rules.specs.MeetsB.{within_limits};
ghost use Rattle.activity.specs.View.{header_view};
ghost use Rattle.trial.specs.Trial.{spare_of};

use activity::Header;
use rules::Projection;

// What the base can spare: an activity that draws no more in all keeps the limits, whenever it draws.
pub fn spare_charge(header: Header, projection: Projection) -> i64
    requires { within_limits (header_view header) projection ≡ true }
    ensures { result ≡ spare_of header projection }
{
    let over_floor = projection.lowest - i64::from(header.floor);
    let over_handover = projection.last - i64::from(header.handover);
    over_floor.min(over_handover)
}
