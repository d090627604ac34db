// What is counted in the bytes of a stored state: entries that wait, and destinations that a node reaches.
#![tactic(auto)]

ghost use Rattle.std.specs.Prelude.{◌≡◌, ◌<◌, ◌≤◌, ◌&&◌, not, eqb, ltb};
ghost use Rattle.hop_rule.specs.declared.Table.TheVariants.{Distances};
ghost use Rattle.hop_cells.specs.Cells as cell;
ghost use Rattle.hop_counts.specs.Counts as counts;

use hop_cells::{Stored, square};
use hop_rule::Table;

// The entries that wait for node u.
pub fn waiting_for(s: Stored, u: usize) -> usize
    requires { u < s.n }
    ensures { (result ≡ counts.waiting_for s.entry.n u s.entry.bytes.now) × (result ≤ 10200) }
{
    (0..s.n).map(|w| s.get2(Table::Lengths, w, u)).sum()
}

// And from it: the order of the two nodes is all that differs, and a function that is handed it is no shorter.
pub fn waiting_from(s: Stored, u: usize) -> usize
    requires { u < s.n }
    ensures { (result ≡ counts.waiting_from s.entry.n u s.entry.bytes.now) × (result ≤ 10200) }
{
    (0..s.n).map(|x| s.get2(Table::Lengths, u, x)).sum()
}

// And in the whole state.
pub fn queued(s: Stored) -> usize
    ensures { (result ≡ counts.queued s.entry.n s.entry.bytes.now) × (result ≤ 408000) }
{
    (0..square(s.n))
        .map(|i| usize::from(s.get(Table::Lengths, i)))
        .sum()
}

// Is v a destination other than u itself that u has at a distance below n?
fn reaches(s: Stored, u: usize, v: usize) -> bool
    requires { (u < s.n) × (v < s.n) }
    ensures { result ≡ not (eqb v u) && ltb (cell.get2 s.entry.n Distances u v s.entry.bytes.now) s.entry.n }
{
    v != u && s.get2(Table::Distances, u, v) < s.n
}

// And how many of them there are.
pub fn reached(s: Stored, u: usize) -> usize
    requires { u < s.n }
    ensures { (result ≡ counts.reached s.entry.n u s.entry.bytes.now) × (result ≤ 40) }
{
    (0..s.n).filter(|v| reaches(s, u, *v)).count()
}
