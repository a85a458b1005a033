// Where the engine works in the lent work area; specs/Layout.antt has the same for the definitions.
ghost use Rattle.std.specs.Prelude.{◌≡◌, ◌≤◌};
ghost use Rattle.lines.specs.Limits.{max_variables};
ghost use Rattle.engine_packed_steps.specs.Layout.{row_at, places_at, points_at_lem};

// A row with a number of each point, and behind it a mark of each.
pub fn row_at(n: usize) -> usize
    requires { n ≤ max_variables }
    ensures { result ≡ row_at n }
{
    let size = 2 * n;
    (size + 1) * size + size * size + size
}

// The place of each variable, the variable at each place, and how many steps each variable has.
pub fn places_at(n: usize) -> usize
    requires { n ≤ max_variables }
    ensures { result ≡ places_at n }
{
    row_at(n) + 4 * n
}

// The numbers of points, a row to copy to, and the table on reduced weights.
pub fn points_at(n: usize) -> usize
    requires { n ≤ max_variables }
    ensures { result ≡ points_at_lem n }
{
    places_at(n) + 3 * n
}
