// The door for C: the kernel's own, under the name that a linker sees.
#![tactic(auto)]

ghost use Rattle.std.specs.Prelude.{◌≡◌};
ghost use Rattle.rules.specs.Board.{printer};
ghost use Rattle.rules.specs.Door.{door};

// The door: for every table, record and answer area, whatever their lengths and bytes. The code is given back too. The body stays a function of
// its own, to which the exported name leads on: compiled into that, it took 264 bytes of stack for 248. Theorems stand on the kernel's, since
// no crate can stand on this one.
#[inline(never)]
#[unsafe(no_mangle)]
pub extern "C" fn speltmallet_door(table: &mut [u8], request: &[u8], answer: &mut [u8]) -> i32
    ensures code { result ≡ (door printer table.old request.now answer.old).code }
    ensures table { table.new ≡ (door printer table.old request.now answer.old).table }
    ensures area { answer.new ≡ (door printer table.old request.now answer.old).area }
{
    kernel::speltmallet_door(table, request, answer)
}
