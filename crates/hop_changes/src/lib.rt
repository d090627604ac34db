// What R-1 counts over the distances of two stored states of n nodes, before and after: ordered pairs that lost their route, and the change in hops.
// The block of distances is one row of n² bytes, gone through in loops that compile to vector instructions.
// What `as` narrows here is proved to fit; `try_from` would add an error that cannot be.
#![tactic(auto)]

ghost use Rattle.std.specs.Prelude.{◌≡◌, ◌*◌, ◌<◌, ◌≤◌, ◌&&◌, not, ltb, pos, ◌-ℤ◌};
ghost use Rattle.hop_rule.specs.declared.Table.TheVariants.{Distances};
ghost use Rattle.hop_rule.specs.Stored.{flat};
ghost use Rattle.hop_rule.specs.Worth as worth;
ghost use Rattle.hop_cells.specs.Cells as cell;
ghost use Rattle.hop_cells.specs.Cells.{Room};
ghost use Rattle.hop_changes.specs.Changes.{hops_at};

use hop_cells::{Stored, square};
use hop_rule::Table;

// Has the pair at place i a route before and none after?
// Before and after stand beside one node count: two `Stored` would have to be asked for equal counts at each call.
fn lost_at(before: &[u8], after: &[u8], n: usize, i: usize) -> bool
    requires { Room n before.now × Room n after.now × (i < n * n) }
    ensures { result ≡ ltb (cell.get n Distances i before.now) n && not (ltb (cell.get n Distances i after.now) n) }
{
    let m = n as u8;
    let b = Stored { bytes: before, n }.get(Table::Distances, i);
    let a = Stored { bytes: after, n }.get(Table::Distances, i);
    (b < m) & !(a < m)
}

// Ordered pairs that lost their route; those that gained one lost it from after to before.
pub fn lost(before: &[u8], after: &[u8], n: usize) -> u32
    requires { Room n before.now × Room n after.now }
    ensures { (result ≡ worth.lost n (flat n before.now Distances) (flat n after.now Distances)) × (result ≤ 1600) }
{
    (0..square(n))
        .map(|i| u32::from(lost_at(before, after, n, i)))
        .sum()
}

// After minus before where the pair at place i has a route both times, and otherwise 0.
fn change_at(before: &[u8], after: &[u8], n: usize, i: usize) -> i32
    requires { Room n before.now × Room n after.now × (i < n * n) }
    ensures { result ≡ pos (hops_at n after.now before.now i) -ℤ pos (hops_at n before.now after.now i) }
{
    let m = n as u8;
    let b = Stored { bytes: before, n }.get(Table::Distances, i);
    let a = Stored { bytes: after, n }.get(Table::Distances, i);
    if (a < m) & (b < m) {
        return i32::from(a) - i32::from(b);
    }
    0
}

// The change in hops: a signed sum of after minus before, exact at zero and at both signs.
// A loop: a chain's signed `sum` was tried, and that it fits 32 bits at every moment did not close.
pub fn change(before: &[u8], after: &[u8], n: usize) -> i32
    requires { Room n before.now × Room n after.now }
    ensures { result ≡ worth.change n (flat n before.now Distances) (flat n after.now Distances) }
{
    let mut sum: i32 = 0;
    for i in 0..square(n) {
        sum += change_at(before, after, n, i);
    }
    sum
}
