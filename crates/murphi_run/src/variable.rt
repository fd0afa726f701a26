//! The variables of a body: where each of a list of variables stands in the list of the cells in scope.

ghost use Rattle.std.specs.Prelude.{◌≡◌, ◌<◌, ℕ, Some, length, option_map, slice_get};
ghost use Rattle.murphi_run.specs.Blocks.{blocks_from, firsts_from};
ghost use Rattle.murphi_run.specs.Seen.{seen};

use crate::place::Spot;
use murphi_typed::protocol::Variable;

fn variable_at(all: &[Variable], number: usize) -> &Variable
    requires { number < length all.now }
    ensures { slice_get all.now number ≡ Some result.now }
{
    &all[number]
}

fn first_at(firsts: &[usize], number: usize) -> usize
    requires { number < length firsts.now }
    ensures { slice_get firsts.now number ≡ Some result }
{
    firsts[number]
}

/// Where the variable of a number stands, among those that stand one behind the other; none where there is
/// no such variable. `firsts` are the numbers of their first cells.
#[tactic(auto, using(crate::proofs::VariableLemmas::variables))]
pub fn variable<'a>(all: &'a [Variable], firsts: &[usize], number: usize) -> Option<Spot<'a>>
    ensures { (N first : ℕ) → firsts.now ≡ firsts_from N first all.now → option_map seen result ≡ slice_get (blocks_from N first all.now) number }
{
    if number >= all.len() {
        return None;
    }
    if number >= firsts.len() {
        return None;
    }
    let one = variable_at(all, number);
    let first = first_at(firsts, number);
    Some(Spot { first, of: &one.of })
}
