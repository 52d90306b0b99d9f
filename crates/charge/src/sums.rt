// What is drawn up to the horizon.
ghost use Rattle.charge.specs.Charge.{Drawing};

use activity::Header;

// What is drawn in each tick, under a plan's first line.
#[derive(Clone, Copy)]
pub struct Drawn<'a> {
    pub header: Header,
    pub draws: &'a [u32],
    ghost drawing: { Drawing draws.now header },
}
