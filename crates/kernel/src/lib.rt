// The kernel: a request's step, and the one door that the firmware calls.
#![tactic(auto)]

ghost use Rattle.std.specs.Prelude.{true, ◌&&◌, ◌≡◌, eqb, length};
ghost use Rattle.rules.specs.Board.{printer};
ghost use Rattle.rules.specs.Answers.{area_length};
ghost use Rattle.rules.specs.Test.{sound_table};
ghost use Rattle.rules.specs.Steps.{step};
ghost use Rattle.rules.specs.Door.{door};
ghost use Rattle.layout.specs.Held.{board};
ghost use Rattle.waiting.specs.Does.{Serves, Does};

use rules::{AREA, Answer, Refusal, Request};

// A step: each request by its own operation. It stays a match, which is checked to have all of them: a table of operations would name as many.
#[tactic(auto, unfolding(rules::specs::Steps::step))]
fn step(t: &mut [u8], request: Request) -> Answer
    requires { Serves t.old }
    ensures { Does t.old t.new result (λ s. step s request) }
{
    match request {
        Request::Yield => threads::yield_turn(t),
        Request::Create {
            thread,
            priority,
            turn,
        } => threads::create(t, thread, priority, turn),
        Request::Delete { thread } => threads::delete(t, thread),
        Request::Suspend { thread } => threads::suspend(t, thread),
        Request::Resume { thread } => threads::resume(t, thread),
        Request::Delay { number } => threads::delay(t, number),
        Request::Cancel { thread } => threads::cancel(t, thread),
        Request::Send {
            thread,
            number,
            parcel,
        } => mail::send(t, thread, number, parcel),
        Request::SendFromInterrupt { thread, parcel } => mail::send_from_interrupt(
            t, thread, parcel,
        ),
        Request::Receive { number } => mail::receive(t, number),
        Request::Make { semaphore, number } => semaphores::make(t, semaphore, number),
        Request::Drop { semaphore } => semaphores::drop_semaphore(t, semaphore),
        Request::Pend { semaphore, number } => semaphores::pend(t, semaphore, number),
        Request::Abort { thread } => semaphores::abort(t, thread),
        Request::Post { semaphore, number } => semaphores::post(t, semaphore, number),
        Request::PostFromInterrupt { semaphore, number } => semaphores::post_from_interrupt(
            t, semaphore, number,
        ),
        Request::Lock => time::lock(t),
        Request::Unlock => time::unlock(t),
        Request::Tick => time::tick(t),
        Request::Outcome { thread } => time::outcome(t, thread),
        Request::Ticks { number } => sleep::ticks(t, number),
        Request::Nearest => sleep::nearest(t),
        Request::SetPriority { thread, priority } => threads::set_priority(t, thread, priority),
        Request::SetTurn { thread, turn } => threads::set_turn(t, thread, turn),
    }
}

// Can a call be served? −7 is given where it cannot: "table unsound, or answer area not 8 bytes".
fn can_serve(table: &[u8], answer: &[u8]) -> bool
    ensures { result ≡ (eqb (length answer.now) area_length && sound_table (board table.now) table.now) }
{
    answer.len() == AREA && sound::sound(table)
}

// A call that can be served: the step of the request, and its answer in the area. A function of its own, to which the door leads on at its end: so what
// the door's test takes of the stack is given back before, and no more is taken than here.
#[inline(never)]
#[tactic(auto, unfolding(rules::specs::Door::door, rules::specs::Door::serve_decoded))]
fn serve(table: &mut [u8], request: &[u8], answer: &mut [u8]) -> i32
    requires { (eqb (length answer.old) area_length && sound_table (board table.old) table.old) ≡ true }
    ensures code { result ≡ (door printer table.old request.now answer.old).code }
    ensures table { table.new ≡ (door printer table.old request.now answer.old).table }
    ensures area { answer.new ≡ (door printer table.old request.now answer.old).area }
{
    let Some(asked) = request::decode(request) else {
        answer::put_answer(answer, Err(Refusal::BadRecord));
        return i32::from(Refusal::BadRecord);
    };
    let given = step(table, asked);
    answer::put_answer(answer, given);
    answer::code(given)
}

// The door: for every table, record and answer area, whatever their lengths and bytes. The code is given back too.
#[tactic(auto, unfolding(rules::specs::Door::door, rules::specs::Door::serve_decoded))]
pub fn speltmallet_door(table: &mut [u8], request: &[u8], answer: &mut [u8]) -> i32
    ensures code { result ≡ (door printer table.old request.now answer.old).code }
    ensures table { table.new ≡ (door printer table.old request.now answer.old).table }
    ensures area { answer.new ≡ (door printer table.old request.now answer.old).area }
{
    if !can_serve(table, answer) {
        return i32::from(Refusal::BadTable);
    }
    serve(table, request, answer)
}
