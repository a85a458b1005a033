// Where the engine for differences works in the lent work area; specs/Layout.antt has the same for the definitions.
ghost use Rattle.std.specs.Prelude.{◌≡◌, ◌≤◌};
ghost use Rattle.lines.specs.Limits.{max_variables};
ghost use Rattle.differences_rows.specs.Layout.{walk_at_lem, points_at_lem};

// Behind the rows 0 to n: the step numbers of a walk, or a number of each variable.
pub fn walk_at(n: usize) -> usize
    requires { n ≤ max_variables }
    ensures { result ≡ walk_at_lem n }
{
    (n + 1) * n
}

// Behind these: the points of the walk.
pub fn points_at(n: usize) -> usize
    requires { n ≤ max_variables }
    ensures { result ≡ points_at_lem n }
{
    walk_at(n) + n
}
