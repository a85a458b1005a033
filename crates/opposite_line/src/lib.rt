// The opposite of a line, which an assignment of whole numbers meets exactly if it does not meet the line.

#![tactic(auto)]

ghost use Rattle.std.specs.Prelude.{◌≡◌};
ghost use Rattle.integers.specs.Integer.{Within};
ghost use Rattle.lines.specs.Limits.{max_variables, shown_constant_lem};
ghost use Rattle.opposite_line.specs.Opposite.{opposite};

use lines::Line;

// The opposite line: -a·x - b·y <= -d - 1.
pub fn opposite_line(line: Line) -> Line
    requires { Within 1 line.a × Within 1 line.b × Within (shown_constant_lem max_variables) line.d }
    ensures { result ≡ opposite line }
{
    Line {
        a: -line.a,
        x: line.x,
        b: -line.b,
        y: line.y,
        d: -line.d - 1,
        identifier: line.identifier,
    }
}
