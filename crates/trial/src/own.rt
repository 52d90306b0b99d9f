// What the candidate draws at a start.
ghost use Rattle.std.specs.Prelude.{◌≡◌, ◌+◌, ◌^◌, ◌<◌, ◌≤◌};
ghost use Rattle.charge.specs.Charge.{own_view};
ghost use Rattle.trial.specs.Trial.{own_draw, energy_of};

use activity::Header;
use charge::own::OwnDraw;
use placed::heater_from;

// What an activity draws at a start.
pub fn own_draw(header: Header, start: u32, duration: u32, draw: u32, warm: u32) -> OwnDraw
    requires { start + duration ≤ 4096 }
    ensures { own_view result ≡ own_draw header start duration draw warm }
{
    OwnDraw {
        heat: heater_from(header.minute, start, warm) as usize,
        start: start as usize,
        end: (start + duration) as usize,
        draw,
        heater: header.heater,
    }
}

// What one activity draws in all.
#[tactic(auto, unfolding(crate::specs::Trial::energy_of))]
pub fn energy(own: OwnDraw) -> u64
    requires { own.end ≤ 4096 }
    ensures value { result ≡ energy_of (own_view own) }
    ensures bound { result < 2 ^ 50 }
{
    let heated = (own.start - own.heat) as u64 * u64::from(own.heater);
    let held = (own.end - own.start) as u64 * u64::from(own.draw);
    heated + held
}
