// The exported function that is lent two refutations of a list and says which is the shorter accepted one. It answers a
// struct.
ghost use Rattle.std.specs.Prelude.{◌≡◌};
ghost use Rattle.c_shorter.specs.Calls.{shorter_returned};

use c_shorter::CPart;

// Which of these two refutations of this list of n variables is accepted, and which of two that are is the shorter?
#[unsafe(no_mangle)]
pub extern "C" fn utvpi_shorter(n: u64, list: &[i32], first: &[u32], second: &[u32]) -> CPart
    ensures { result ≡ shorter_returned n list.now first.now second.now }
{
    c_shorter::utvpi_shorter(n, list, first, second)
}
