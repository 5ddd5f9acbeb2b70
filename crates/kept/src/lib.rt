// The controller over what the panel board keeps in place: lent for the length of a call.
#![tactic(auto)]

ghost use Rattle.std.specs.Prelude.{◌≡◌};
ghost use Rattle.controller.specs.Call.{outcome_as};
ghost use Rattle.state.specs.Event.{after};

use controller::{Answer, Called, Held};
use frame::Kind;
use state::{Event, Record};

// The by-value call; what it returns is stored back.
pub fn call<H: Held>(kind: Kind, kept: &mut H, request: &[u8], out: &mut [u8]) -> Answer
    ensures { outcome_as result kept.new out.new ≡ H.called kind kept.old request.now out.old }
{
    let called = controller::call(kind, *kept, request, out);
    *kept = called.after;
    called.answer
}

// What the panel does.
pub fn event(kept: &mut Record, event: Event)
    ensures { kept.new ≡ after event kept.old }
{
    *kept = kept.after(event);
}

// Keeps what is held in place for the length of a call, and lends it to that: the by-value call again.
pub fn lend_to_call<H: Held>(
    kind: Kind,
    mut held: H,
    request: &[u8],
    out: &mut [u8],
) -> Called<Answer, H>
    ensures { outcome_as result.answer result.after out.new ≡ H.called kind held request.now out.old }
{
    let answer = call(kind, &mut held, request, out);
    Called {
        answer,
        after: held,
    }
}

// The same for what the panel does.
pub fn lend_to_event(mut held: Record, happens: Event) -> Record
    ensures { result ≡ after happens held }
{
    event(&mut held, happens);
    held
}
