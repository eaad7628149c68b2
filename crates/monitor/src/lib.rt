// The one guest state that the monitor keeps, lent to the injection.
#![tactic(auto)]

ghost use Rattle.guest.specs.Promise.{Injecting};

use exception::Guest;
use guest::{Injection, InjectionRefusal, inject};

// Injects into the state where it lies: answer and state are those of the call by value, on a refusal too.
pub fn inject_in_place(state: &mut Guest, what: Injection) -> Result<(), InjectionRefusal>
    ensures { Injecting state.old what (record { answer = result; state = state.new }) }
{
    let after = inject(*state, what);
    *state = after.state;
    after.answer
}
