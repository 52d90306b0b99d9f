// A need of a row.
ghost use Rattle.std.specs.Prelude.{◌≡◌, ◌<◌};

// A need: its variable, and the code of its value; the code 0 is that of no need, as in Row.
#[derive(Clone, Copy)]
pub struct Need {
    pub variable: u16,
    pub code: u16,
    pub ghost known: { variable < 8 },
}

impl Default for Need {
    // None. By hand: no Default is derived for a ghost field, and `need_at` goes by the code 0 that is promised here.
    fn default() -> Self
        ensures { (result.variable ≡ 0) × (result.code ≡ 0) }
    {
        Need {
            variable: 0,
            code: 0,
        }
    }
}
