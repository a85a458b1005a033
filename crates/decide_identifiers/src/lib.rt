// The identifiers of a refutation's steps: of each step that of its line, in walk order.

#![tactic(auto)]

ghost use Rattle.std.specs.Prelude.{◌≡◌, ◌++◌, ◌/◌, ◌<◌, ◌≤◌, length, drop};
ghost use Rattle.lines.specs.Line.{line_at, line_count};
ghost use Rattle.lines.specs.Valid.{IdentifierOk};
ghost use Rattle.check_soundness.specs.Head.{steps_in};
ghost use Rattle.decide_identifiers.specs.Identifiers.{identifier_of_lem, identifiers_of, StepsNamed};

use check_refutation::HEAD_SIZE;
use lines::line_at;

// The identifier of the line that the step with this number is of.
fn identifier_of(list: &[i32], step: u32) -> u32
    requires { (step / 2 < line_count list.now) × IdentifierOk (line_at list.now (step / 2)).identifier }
    ensures { result ≡ identifier_of_lem list.now step }
{
    let line = line_at(list, step as usize / 2);
    line.identifier as u32
}

// The identifiers of all steps of a refutation, at the front of the buffer.
#[tactic(auto, unfolding(crate::specs::Identifiers::identifiers_of))]
pub fn write_identifiers(list: &[i32], refutation: &[u32], identifiers: &mut [u32])
    requires { StepsNamed list.now refutation.now × (steps_in refutation.now ≤ length identifiers.old) }
    ensures { identifiers.new ≡ identifiers_of list.now refutation.now ++ drop (steps_in refutation.now) identifiers.old }
{
    let count = refutation[1] as usize + refutation[2] as usize;
    for i in 0..count {
        identifiers[i] = identifier_of(list, refutation[HEAD_SIZE + i]);
    }
}
