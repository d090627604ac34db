// One queue of a stored state: sending into it, taking its head, filling and emptying it.
// What `as` narrows here is proved to fit; `try_from` would add an error that cannot be.
// Bytes that are written come apart from their count: see `Stored` in hop_cells for what a struct of the two costs.
// What writes to a buffer at each turn is a loop: of what a closure has changed a proof knows nothing after `for_each`.
#![tactic(auto)]

ghost use Rattle.std.specs.Prelude.{◌≡◌, ◌+◌, ◌*◌, ◌<◌, ◌≤◌};
ghost use Rattle.hop_cells.specs.Cells.{Room, cells};
ghost use Rattle.hop_rule.specs.declared.Table.TheVariants.{Destinations};
ghost use Rattle.hop_rows.specs.Rows.{row, none_is};
ghost use Rattle.hop_queues.specs.Queues as queue;

use hop_cells::{Stored, fill, fill_cells, put2, put3, triple};
use hop_rows::row3;
use hop_rule::Table;

// The entries that the queue from w to u holds.
pub fn held(s: Stored, w: usize, u: usize) -> usize
    requires { (w < s.n) × (u < s.n) }
    ensures { (result ≡ queue.held s.entry.n w u s.entry.bytes.now) × (result ≤ s.entry.n) }
{
    s.get2(Table::Lengths, w, u).min(s.n)
}

// The first of the places below m at which v waits.
fn first_at(s: Stored, w: usize, u: usize, v: usize, m: usize) -> Option<usize>
    requires { (w < s.n) × (u < s.n) × (m ≤ s.n) }
    ensures { queue.IsPlace result m (queue.first_at s.entry.n w u v m s.entry.bytes.now) }
{
    (0..m).find(|p| s.get3(Table::Destinations, w, u, *p) == v)
}

// Is v at none of the places below m? Quicker to find out than where it is.
fn waits_nowhere(s: Stored, w: usize, u: usize, v: usize, m: usize) -> bool
    requires { (w < s.n) × (u < s.n) × (v < s.n) × (m ≤ s.n) }
    ensures { result ≡ none_is s.entry.bytes.now (row s.entry.n Destinations (w * s.entry.n + u)) m v }
{
    !row3(s, Table::Destinations, w, u)[..m].contains(&(v as u8))
}

// A place below m at which v waits. Link up puts v at place v, so that one is looked at first.
#[tactic(auto, unfolding(crate::specs::Queues::waits_at))]
fn waits_at(s: Stored, w: usize, u: usize, v: usize, m: usize) -> Option<usize>
    requires { (w < s.n) × (u < s.n) × (v < s.n) × (m ≤ s.n) }
    ensures { queue.IsPlace result m (queue.waits_at s.entry.n w u v m s.entry.bytes.now) }
{
    if v < m {
        if s.get3(Table::Destinations, w, u, v) == v {
            return Some(v);
        }
    }
    if waits_nowhere(s, w, u, v, m) {
        return None;
    }
    first_at(s, w, u, v, m)
}

// The entry (v, d) joins the tail, which is place p.
#[tactic(auto, unfolding(crate::specs::Queues::join))]
fn join(s: &mut [u8], n: usize, w: usize, u: usize, v: usize, d: u8, p: usize)
    requires { Room n s.old × (w < n) × (u < n) × (v < n) × (p < n) }
    ensures { s.new ≡ queue.join n w u v d p s.old }
{
    put3(s, n, Table::Destinations, w, u, p, v as u8);
    put3(s, n, Table::Values, w, u, p, d);
    put2(s, n, Table::Lengths, w, u, (p + 1) as u8);
}

// The value is replaced where v waits, and otherwise the entry joins the tail.
#[tactic(auto, unfolding(crate::specs::Queues::send))]
pub fn send(s: &mut [u8], n: usize, w: usize, u: usize, v: usize, d: u8)
    requires { Room n s.old × (w < n) × (u < n) × (v < n) }
    ensures { s.new ≡ queue.send n w u v d s.old }
{
    let state = Stored { bytes: s, n };
    let m = held(state, w, u);
    if let Some(p) = waits_at(state, w, u, v, m) {
        put3(s, n, Table::Values, w, u, p, d);
    } else if m < n {
        join(s, n, w, u, v, d, m);
    }
}

// Place p of a row takes what stands k places behind it.
#[tactic(auto, unfolding(crate::specs::Queues::shift))]
fn shift(s: &mut [u8], n: usize, t: Table, w: usize, u: usize, k: usize, p: usize)
    requires { Room n s.old × (w < n) × (u < n) × (p + k < n) × (cells n t ≡ n * n * n) }
    ensures { s.new ≡ queue.shift n t w u k p s.old }
{
    let x = Stored { bytes: s, n }.get3(t, w, u, p + k);
    put3(s, n, t, w, u, p, x as u8);
}

// The first k entries of a row leave, the m behind them move up, and the places that fall free become 0.
// A loop: with `copy_within` a pass over full queues took 1.05 of its time at 10 nodes, and no row may get slower (docs/PERFORMANCE.md).
fn move_up(s: &mut [u8], n: usize, t: Table, w: usize, u: usize, k: usize, m: usize)
    requires { Room n s.old × (w < n) × (u < n) × (m + k ≤ n) × (cells n t ≡ n * n * n) }
    ensures { s.new ≡ queue.move_up n t w u k m s.old }
{
    for p in 0..m {
        shift(s, n, t, w, u, k, p);
    }
    fill_cells(s, n, t, triple(n, w, u, 0) + m, k, 0);
}

// The first k entries of the queue leave, and m stay.
#[tactic(auto, unfolding(crate::specs::Queues::take_first))]
pub fn take_first(s: &mut [u8], n: usize, w: usize, u: usize, k: usize, m: usize)
    requires { Room n s.old × (w < n) × (u < n) × (m + k ≤ n) }
    ensures { s.new ≡ queue.take_first n w u k m s.old }
{
    move_up(s, n, Table::Destinations, w, u, k, m);
    move_up(s, n, Table::Values, w, u, k, m);
    put2(s, n, Table::Lengths, w, u, m as u8);
}

// Destination v stands at place v, with the sender's distance.
#[tactic(auto, unfolding(crate::specs::Queues::offer))]
fn offer(s: &mut [u8], n: usize, w: usize, u: usize, v: usize)
    requires { Room n s.old × (w < n) × (u < n) × (v < n) }
    ensures { s.new ≡ queue.offer n w u v s.old }
{
    let d = Stored { bytes: s, n }.get2(Table::Distances, w, v);
    put3(s, n, Table::Destinations, w, u, v, v as u8);
    put3(s, n, Table::Values, w, u, v, d as u8);
}

// All n destinations wait, ascending, with the sender's distances.
#[tactic(auto, unfolding(crate::specs::Queues::offer_all), using(hop_laws::proofs::Words::loop_none, hop_laws::proofs::Words::loop_turn, hop_cells::proofs::Loops::loop_end))]
pub fn offer_all(s: &mut [u8], n: usize, w: usize, u: usize)
    requires { Room n s.old × (w < n) × (u < n) }
    ensures { s.new ≡ queue.offer_all n w u s.old }
{
    for v in 0..n {
        offer(s, n, w, u, v);
    }
    put2(s, n, Table::Lengths, w, u, n as u8);
}

// Nothing waits.
#[tactic(auto, unfolding(crate::specs::Queues::empty))]
pub fn empty(s: &mut [u8], n: usize, w: usize, u: usize)
    requires { Room n s.old × (w < n) × (u < n) }
    ensures { s.new ≡ queue.empty n w u s.old }
{
    fill(s, n, Table::Destinations, w, u, 0);
    fill(s, n, Table::Values, w, u, 0);
    put2(s, n, Table::Lengths, w, u, 0);
}
