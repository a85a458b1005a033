// Signed numbers: halving toward minus infinity, and the test for a range.

#![tactic(auto)]

ghost use Rattle.std.specs.Prelude.{◌≡◌};
ghost use Rattle.integers.specs.Integer.{half, is_between};

// s halved, rounded toward minus infinity: -7 goes to -4.
pub fn halved(s: i64) -> i64
    ensures { result ≡ half s }
{
    s >> 1
}

// Whether low <= z <= high.
pub fn between(low: i64, high: i64, z: i64) -> bool
    ensures { result ≡ is_between low high z }
{
    low <= z && z <= high
}
