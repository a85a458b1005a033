// The exported check of a showing, on bytes: four little-endian bytes to a number. It answers one number.
ghost use Rattle.std.specs.Prelude.{◌≡◌};
ghost use Rattle.c_check_shown.specs.Calls.{check_shown_lem};

// Do these bytes show that every solution of this list of n variables meets this line?
#[unsafe(no_mangle)]
pub extern "C" fn utvpi_check_shown(n: u64, list: &[u8], line: &[u8], showing: &[u8]) -> i64
    ensures { result ≡ check_shown_lem n list.now line.now showing.now }
{
    c_check_shown::utvpi_check_shown(n, list, line, showing)
}
