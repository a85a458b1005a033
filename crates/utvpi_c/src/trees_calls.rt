// The exported questions about a tree over the lines of a list, with lent buffers. Each answers a struct.
ghost use Rattle.c_trees.specs.Calls.{FirstReturns, ChoiceReturns};

use c_trees::CChoice;

// The first choice, of a tree over the lines of this list of n variables, that whole numbers meet: its number, and such
// numbers in the model.
#[unsafe(no_mangle)]
pub extern "C" fn utvpi_tree_first(
    n: u64,
    list: &[i32],
    tree: &[u32],
    model: &mut [i32],
    work: &mut [i64],
) -> CChoice
    ensures { FirstReturns n list.now tree.now result
        (record { model = model.old; work = work.old })
        (record { model = model.new; work = work.new }) }
{
    c_trees::utvpi_tree_first(n, list, tree, model, work)
}

// Decides the choice with this number, of a tree over the lines of this list of n variables.
#[unsafe(no_mangle)]
pub extern "C" fn utvpi_tree_decide(
    n: u64,
    list: &[i32],
    tree: &[u32],
    choice: u64,
    model: &mut [i32],
    bounds: &mut [i64],
    groups: &mut [u32],
    refutation: &mut [u32],
    identifiers: &mut [u32],
    work: &mut [i64],
) -> CChoice
    ensures { ChoiceReturns n list.now tree.now choice result
        (record { model = model.old; bounds = bounds.old; groups = groups.old; refutation = refutation.old; identifiers = identifiers.old; work = work.old })
        (record { model = model.new; bounds = bounds.new; groups = groups.new; refutation = refutation.new; identifiers = identifiers.new; work = work.new }) }
{
    c_trees::utvpi_tree_decide(
        n,
        list,
        tree,
        choice,
        model,
        bounds,
        groups,
        refutation,
        identifiers,
        work,
    )
}
