// The table of a candidate's sets.
ghost use Rattle.std.specs.Prelude.{◌<◌, ◌^◌, length};

// The sets of conditions that a candidate's starts meet, as many as a start can number.
#[derive(Drop)]
pub struct Table<'a> {
    pub sets: &'a [u16],
    ghost few: { length sets.now < 2 ^ 32 },
}
