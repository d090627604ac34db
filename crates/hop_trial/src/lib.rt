// One trial of R-1, in a buffer that begins with a copy of the state: the link of a pair is turned, the trial is run to rest, what it tells is counted, and the copy is there again.
// Bytes that are written come apart from their count: see `Stored` in hop_cells for what a struct of the two costs.
#![tactic(auto)]

ghost use Rattle.std.specs.Prelude.{◌≡◌, true, ◌<◌, ◌≤◌, length, take};
ghost use Rattle.hop_rule.specs.Stored.{read};
ghost use Rattle.hop_rule.specs.Records.{written};
ghost use Rattle.hop_rule.specs.Worth.{line, tried};
ghost use Rattle.hop_cells.specs.Cells.{Room};
ghost use Rattle.hop_trial.specs.Trial.{turned, Copied, found};

use hop_cells::{Stored, start};
use hop_changes::{change, lost};
use hop_rule::Table;
use hop_runs::run;
use hop_steps::{link_down, link_up};

// What a trial tells of its pair.
#[derive(Clone, Copy)]
pub struct Found {
    pub passes: u32,
    pub deliveries: u32,
    pub lost: u32,
    pub gained: u32,
    pub change: i32,
}

// The first k bytes of one buffer, written over those of another.
// A loop: with `copy_from_slice` here the archive imports memmove, which README promises that it does not ('What is trusted').
pub fn copy(from: &[u8], to: &mut [u8], k: usize)
    requires { (k ≤ length from.now) × (k ≤ length to.old) }
    ensures { to.new ≡ written (take k from.now) to.old }
{
    for i in 0..k {
        to[i] = from[i];
    }
}

// An up link is taken down, a down link is put up. Both ends of a pair that is tried are as a's own is.
#[tactic(auto, unfolding(crate::specs::Trial::turned))]
fn turn(x: &mut [u8], n: usize, a: usize, b: usize)
    requires { Room n x.old × (a < n) × (b < n) }
    ensures { x.new ≡ turned n a b x.old }
{
    let state = Stored { bytes: x, n };
    if state.get2(Table::Links, a, b) == 1 {
        link_down(x, n, a, b);
    } else {
        link_up(x, n, a, b);
    }
}

// The trial of the pair a, b, which is one that is tried. It ends at rest, so what stands behind the views is 0 as it was, and what stands before is copied anew.
pub fn trial(s: &[u8], x: &mut [u8], n: usize, a: usize, b: usize) -> Found
    requires { Copied n s.now x.old × (tried (read s.now) a b ≡ true) × (b < n) }
    ensures { (result ≡ found (line (read s.now) a b)) × (x.new ≡ x.old) }
{
    turn(x, n, a, b);
    let ran = run(x, n, 255);
    let lost_pairs = lost(s, x, n);
    let gained_pairs = lost(x, s, n);
    let hops = change(s, x, n);
    copy(s, x, start(n, Table::Lengths));
    Found {
        passes: ran.passes,
        deliveries: ran.deliveries,
        lost: lost_pairs,
        gained: gained_pairs,
        change: hops,
    }
}
