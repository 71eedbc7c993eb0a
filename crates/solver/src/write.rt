//! Writing a pair whose checks have passed.

ghost use Rattle.std.specs.Prelude.{◌≡◌, Ok};
ghost use Rattle.solver.specs.Writing.{changed_meaning, set_answer};

use measure::Amount;
use store::TieStore;

// Gives the pair an amount, or none, where the store does not refuse it.
pub(crate) fn set_tie<S: TieStore>(store: &mut S, from: u16, to: u16, amount: Option<Amount>)
    requires { set_answer (S.TieStore.meaning store.old) from to amount ≡ Ok tt }
    ensures { S.TieStore.meaning store.new ≡ changed_meaning (S.TieStore.meaning store.old) from to amount }
{
    match amount {
        Some(amount) => {
            let _ = store.put(from, to, amount);
        }
        None => {
            let _ = store.clear(from, to);
        }
    }
}
