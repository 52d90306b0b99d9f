// Whether two activities have a unit in common.
ghost use Rattle.std.specs.Prelude.{◌≡◌, ◌&&◌};
ghost use Rattle.std.specs.List.{list_any, zip};
ghost use Rattle.load.specs.Loads.{share_units};

use placed::Row;

// Whether both have a unit.
fn any_both(units: &[bool; 32], others: &[bool; 32]) -> bool
    ensures { result ≡ list_any (λ pair. pair.0 && pair.1) (zip units.now others.now) }
{
    units.iter().zip(others).any(|(has, also)| *has && *also)
}

// Whether two rows have a unit in common.
pub fn share_units(row: &Row, other: &Row) -> bool
    ensures { result ≡ share_units row.now other.now }
{
    any_both(&row.units, &other.units)
}
