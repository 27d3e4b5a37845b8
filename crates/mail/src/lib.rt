// Mailboxes: Send, Send from interrupt, Receive. Each operation tests its refusals in document 01's order, before the first write.
//
// The promises are those of crate `waiting`: `Becomes` for a change, `Does` for an operation.
#![tactic(auto)]

ghost use Rattle.std.specs.Prelude.{true};
ghost use Rattle.rules.specs.State.{at, edit, with_mail};
ghost use Rattle.rules.specs.Waiting.{end_wait};
ghost use Rattle.rules.specs.Mail.{delivered, emptied, do_send, do_send_from_interrupt, do_receive};
ghost use Rattle.rules.specs.declared.Outcome.TheVariants.{Done};
ghost use Rattle.layout.specs.Boards.{HasThread};
ghost use Rattle.layout.specs.Held.{Whole, Becomes, on_threads};
ghost use Rattle.waiting.specs.Does.{Serves, Does};

use marks::Line;
use rules::{Answer, Outcome, Refusal, Wait};

// SEND

// The parcel goes to thread `i`: it ends the wait of a thread that waits to receive, and fills the mailbox of another.
#[tactic(auto, unfolding(rules::specs::Mail::delivered))]
fn deliver(t: &mut [u8], i: usize, parcel: u32)
    requires { HasThread t.old i × Whole t.old }
    ensures { Becomes t.old t.new (on_threads (delivered i parcel)) }
{
    let th = records::load_thread(t, i);
    if records::is_receiving(th.wait) {
        waiting::end_wait(t, i, Outcome::Done, parcel);
    } else {
        records::set_mail(t, i, true, parcel);
    }
}

// The parcel is delivered, or the sender must wait by number `n`. Refused in the order −1, −5.
#[tactic(auto, unfolding(rules::specs::Mail::do_send))]
pub fn send(t: &mut [u8], i: u8, n: u32, parcel: u32) -> Answer
    requires { Serves t.old }
    ensures { Does t.old t.new result (λ s. do_send s i n parcel) }
{
    let th = waiting::in_use(t, i)?;
    let k = usize::from(i);
    if k == records::running(t) {
        return Err(Refusal::BadOperation);
    }
    if th.full {
        let counter = waiting::wait_counter(n);
        return waiting::must_wait(t, n, Wait::Send { to: i, counter }, parcel);
    }
    deliver(t, k, parcel);
    waiting::accept(t, 0)
}

// The parcel is delivered, or refused: in the order −1, −5.
#[tactic(auto, unfolding(rules::specs::Mail::do_send_from_interrupt))]
pub fn send_from_interrupt(t: &mut [u8], i: u8, parcel: u32) -> Answer
    requires { Serves t.old }
    ensures { Does t.old t.new result (λ s. do_send_from_interrupt s i parcel) }
{
    let th = waiting::in_use(t, i)?;
    if records::lock(t) > 0 || th.full {
        return Err(Refusal::BadOperation);
    }
    deliver(t, usize::from(i), parcel);
    waiting::accept(t, 0)
}

// RECEIVE

// The value of thread `r`'s mailbox is taken: the parcel of the first of its senders moves in, and that one's wait ends; with no sender the
// mailbox is empty. Where senders stand in the line and none is first, which no sound table shows, a parcel of 0 moves in.
fn empty_mailbox(t: &mut [u8], r: usize)
    requires { HasThread t.old r × Whole t.old }
    ensures { Becomes t.old t.new (on_threads (emptied r)) }
{
    // A cast: a thread's number fits in a byte.
    let line = Line::Senders { thread: r as u8 };
    if lines::length(t, line) == 0 {
        records::set_mail(t, r, false, 0);
    } else if let Some(i) = lines::first_if_any(t, line) {
        let th = records::load_thread(t, i);
        waiting::end_wait(t, i, Outcome::Done, 0);
        records::set_mail(t, r, true, th.parcel);
    } else {
        records::set_mail(t, r, true, 0);
    }
}

// The value of the caller's mailbox is taken, or the caller must wait by number `n`. Refused by −5.
#[tactic(auto, unfolding(rules::specs::Mail::do_receive))]
pub fn receive(t: &mut [u8], n: u32) -> Answer
    requires { Serves t.old }
    ensures { Does t.old t.new result (λ s. do_receive s n) }
{
    let r = records::running(t);
    let th = records::load_thread(t, r);
    if th.full {
        empty_mailbox(t, r);
        return waiting::accept(t, th.value);
    }
    let counter = waiting::wait_counter(n);
    waiting::must_wait(t, n, Wait::Receive { counter }, 0)
}
