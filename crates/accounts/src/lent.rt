// The same for a caller that lends bytes.
ghost use Rattle.std.specs.Prelude.{◌≡◌, ◌+◌, ◌-◌, ◌*◌, ◌≤◌, length, take, drop};
ghost use Rattle.std.proofs.lemmas.List.Edits.{sets};
ghost use Rattle.rules.specs.Board.{printer, table_length};
ghost use Rattle.rules.specs.Requests.{request_length};
ghost use Rattle.rules.specs.Door.{table_after};
ghost use Rattle.lanes.specs.Report.{most_records};
ghost use Rattle.lanes.specs.Kept.{Kept};
ghost use Rattle.accounts.specs.Accounts.{accounts_from, handed, events_of, servable};

use rules::{REQUEST, TABLE, THREADS};

// Where a replay stands after a part: how many records are served, and how many bytes are held at the front of the block.
#[derive(Clone, Copy)]
pub struct Stood {
    pub number: usize,
    pub held: usize,
}

// `number` records are served, and the first `n` bytes of the block have come: the whole records among them are served and entered, but no more
// than 1,000,000 in all, and what is left over moves to the front of the block.
pub fn serve(
    table: &mut [u8],
    accounts: &mut [u64],
    number: usize,
    block: &mut [u8],
    n: usize,
) -> Stood
    requires table_len { length table.old ≡ table_length printer }
    requires kept { Kept (most_records - number) accounts.old }
    requires number_le_most_records { (number ≤ most_records) × (n ≤ length block.old) }
    ensures stood { (result.number ≡ number + servable number n) × (result.held ≡ n - servable number n * request_length) }
    ensures table { table.new ≡ table_after printer table.old (handed (servable number n) (take n block.old)) }
    ensures accounts { accounts.new ≡ accounts_from 0 accounts.old (events_of table.old (servable number n) (take n block.old)) }
    ensures block { block.new ≡ sets block.old 0 (drop (servable number n * request_length) (take n block.old)) }
{
    let mut own_table = [0u8; TABLE];
    own_table.copy_from_slice(table);
    let mut own_accounts = [0u64; THREADS];
    own_accounts.copy_from_slice(accounts);
    let k = crate::servable(number, n);
    crate::serve_records(&mut own_table, &mut own_accounts, &block[..n], k);
    table.copy_from_slice(&own_table);
    accounts.copy_from_slice(&own_accounts);
    let from = k * REQUEST;
    block.copy_within(from..n, 0);
    Stood {
        number: number + k,
        held: n - from,
    }
}
