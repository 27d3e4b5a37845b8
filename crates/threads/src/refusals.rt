// Tests behind the refusals of operations on threads: each passes, or says why the operation is refused.
ghost use Rattle.std.specs.Prelude.{if◌then◌else◌, ◌≡◌, Ok, Err};
ghost use Rattle.rules.specs.State.{State};
ghost use Rattle.rules.specs.Threads.{bad_priority, bad_ticks, bound};
ghost use Rattle.rules.specs.declared.Refusal.TheVariants.{BadPriority, BadTicks, BadOperation};
ghost use Rattle.layout.specs.Held.{Long, said};

use rules::{MOST_TICKS, Refusal, TOP_PRIORITY};

// "Priority above 31."
pub fn good_priority(priority: u8) -> Result<(), Refusal>
    ensures { result ≡ (if bad_priority priority then Err BadPriority else Ok tt) }
{
    if priority > TOP_PRIORITY {
        return Err(Refusal::BadPriority);
    }
    Ok(())
}

// "Turn or delay 0 or above 99,999."
pub fn good_ticks(n: u32) -> Result<(), Refusal>
    ensures { result ≡ (if bad_ticks n then Err BadTicks else Ok tt) }
{
    if n == 0 || n > MOST_TICKS {
        return Err(Refusal::BadTicks);
    }
    Ok(())
}

// "Init, or the running thread under lock."
pub fn not_bound(t: &[u8], i: u8) -> Result<(), Refusal>
    requires { Long t.now }
    ensures { (s : State) → said t.now ≡ s → result ≡ (if bound s i then Err BadOperation else Ok tt) }
{
    if i == 0 || (usize::from(i) == records::running(t) && records::lock(t) > 0) {
        return Err(Refusal::BadOperation);
    }
    Ok(())
}
