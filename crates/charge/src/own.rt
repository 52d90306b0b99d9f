// What one activity draws, and when.
ghost use Rattle.std.specs.Prelude.{◌≤◌};

// What one activity draws: the heater's draw from `heat` to before `start`, its own from there to before `end`.
#[derive(Clone, Copy)]
pub struct OwnDraw {
    pub heat: usize,
    pub start: usize,
    pub end: usize,
    pub draw: u32,
    pub heater: u32,
    ghost heat_le_start: { heat ≤ start },
    ghost start_le_end: { start ≤ end },
}
