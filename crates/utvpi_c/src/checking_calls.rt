// The exported checks of a model and of a refutation, on bytes: four little-endian bytes to a number of a list or a refutation,
// eight to a value of a model. Each answers one number.
ghost use Rattle.std.specs.Prelude.{◌≡◌};
ghost use Rattle.c_checking.specs.Calls.{check_model_lem, check_refutation_lem};

// Does this model meet every line of this list of n variables?
#[unsafe(no_mangle)]
pub extern "C" fn utvpi_check_model(n: u64, list: &[u8], model: &[u8]) -> i64
    ensures { result ≡ check_model_lem n list.now model.now }
{
    c_checking::utvpi_check_model(n, list, model)
}

// Does this refutation show that no whole numbers meet this list of n variables?
#[unsafe(no_mangle)]
pub extern "C" fn utvpi_check_refutation(n: u64, list: &[u8], refutation: &[u8]) -> i64
    ensures { result ≡ check_refutation_lem n list.now refutation.now }
{
    c_checking::utvpi_check_refutation(n, list, refutation)
}
