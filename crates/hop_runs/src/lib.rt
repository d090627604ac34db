// Passes and runs on the bytes of a stored state.
// What `as` narrows here is proved to fit; `try_from` would add an error that cannot be.
// Bytes that are written come apart from their count: see `Stored` in hop_cells for what a struct of the two costs.
// What writes to a buffer at each turn is a loop: of what a closure has changed a proof knows nothing after `for_each`.
#![tactic(auto)]

ghost use Rattle.std.specs.Prelude.{◌≡◌, ℕ, ◌+◌, ◌*◌, ◌<◌, ◌≤◌, length, get_or};
ghost use Rattle.hop_rule.specs.declared.Table.TheVariants.{Lengths};
ghost use Rattle.hop_rule.specs.Words.{loop};
ghost use Rattle.hop_cells.specs.Cells as cell;
ghost use Rattle.hop_cells.specs.Cells.{Room};
ghost use Rattle.hop_counts.specs.Counts as counts;
ghost use Rattle.hop_runs.specs.Runs as runs;

use hop_cells::{Stored, square, start};
use hop_counts::queued;
use hop_rows::all_are;
use hop_rule::Table;
use hop_steps::drain;

// What a run did.
#[derive(Clone, Copy)]
pub struct Ran {
    pub passes: u32,
    pub deliveries: u32,
}

// The lengths of all queues, by sender and receiver, are noted; and how many entries that is.
fn note(s: Stored, noted: &mut [u8; 1600]) -> u32
    ensures { (result ≡ counts.queued s.entry.n s.entry.bytes.now) × (result ≤ 408000) × ((i : ℕ) → i < s.entry.n * s.entry.n → get_or noted.new i 0 ≡ cell.get s.entry.n Lengths i s.entry.bytes.now) }
{
    let k = square(s.n);
    let from = start(s.n, Table::Lengths);
    noted[..k].copy_from_slice(&s.bytes[from..from + k]);
    queued(s) as u32
}

// The queue at place i gives up as many entries as are noted for it.
#[tactic(auto, unfolding(hop_steps::specs::Steps::drain))]
fn pass_at(s: &mut [u8], n: usize, noted: &[u8; 1600], i: usize)
    requires { Room n s.old × (i < n * n) }
    ensures { s.new ≡ runs.pass_at n noted.now i s.old }
{
    if noted[i] != 0 {
        drain(s, n, i / n, i % n, usize::from(noted[i]));
    }
}

// The k queues from place i on.
#[tactic(auto, using(hop_laws::proofs::Words::loop_none, hop_laws::proofs::Words::loop_turn))]
fn pass_some(s: &mut [u8], n: usize, noted: &[u8; 1600], i: usize, k: usize)
    requires { Room n s.old × (i + k ≤ n * n) }
    ensures { s.new ≡ loop k (λ (j : ℕ). runs.pass_at n noted.now (i + j)) s.old }
{
    for j in 0..k {
        pass_at(s, n, noted, i + j);
    }
}

// Eight of them: mostly nothing is noted for any, and that is found out at once.
fn pass_eight(s: &mut [u8], n: usize, noted: &[u8; 1600], i: usize)
    requires { Room n s.old × (i + 8 ≤ n * n) }
    ensures { s.new ≡ loop 8 (λ (j : ℕ). runs.pass_at n noted.now (i + j)) s.old }
{
    if all_are(&noted[i..i + 8], 0) {
        return;
    }
    pass_some(s, n, noted, i, 8);
}

// The first 8 k queues. By their place, since sender and receiver are its quotient and rest by n; chunks of `noted` would have to be counted beside.
fn pass_eights(s: &mut [u8], n: usize, noted: &[u8; 1600], k: usize)
    requires { Room n s.old × (8 * k ≤ n * n) }
    ensures { s.new ≡ loop (8 * k) (runs.pass_at n noted.now) s.old }
{
    for g in 0..k {
        pass_eight(s, n, noted, 8 * g);
    }
}

// All queues, ascending by sender and then by receiver. What does not fill eight is the rest.
fn pass_noted(s: &mut [u8], n: usize, noted: &[u8; 1600])
    requires { Room n s.old }
    ensures { s.new ≡ loop (n * n) (runs.pass_at n noted.now) s.old }
{
    let m = square(n);
    let k = m / 8;
    pass_eights(s, n, noted, k);
    pass_some(s, n, noted, 8 * k, m % 8);
}

// The senders, ascending, by the lengths at the start.
pub fn pass(s: &mut [u8], n: usize)
    requires { Room n s.old }
    ensures { s.new ≡ runs.pass n s.old }
{
    let mut noted = [0u8; 1600];
    note(Stored { bytes: s, n }, &mut noted);
    pass_noted(s, n, &noted);
}

// Passes until every queue is empty or k are made.
pub fn run(s: &mut [u8], n: usize, k: u32) -> Ran
    requires { Room n s.old × (k < 256) }
    ensures { (result ≡ runs.ran n k s.old) × (s.new ≡ runs.run n k s.old) }
{
    let mut noted = [0u8; 1600];
    let mut deliveries = 0u32;
    for made in 0..k {
        let waiting = note(Stored { bytes: s, n }, &mut noted);
        if waiting == 0 {
            return Ran {
                passes: made,
                deliveries,
            };
        }
        pass_noted(s, n, &noted);
        deliveries += waiting;
    }
    Ran {
        passes: k,
        deliveries,
    }
}
