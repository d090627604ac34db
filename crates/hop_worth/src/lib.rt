// What each link is worth (02, R-1): the lines of all pairs that are tried, ascending, and the public call, which does not count on its caller.
// What `as` narrows here is proved to fit; `try_from` would add an error that cannot be.
// What writes to a buffer at each turn is a loop: of what a closure has changed a proof knows nothing after `for_each`.
#![tactic(auto)]

ghost use Rattle.std.specs.Prelude.{◌≡◌, ◌+◌, ◌*◌, ◌<◌, ◌≤◌, pos, length, set};
ghost use Rattle.std.proofs.lemmas.List.Edits.{sets};
ghost use Rattle.hop_rule.specs.Stored.{read};
ghost use Rattle.hop_rule.specs.Worth.{numbers, lines};
ghost use Rattle.hop_laws.specs.Lines.{lines_of};
ghost use Rattle.hop_trial.specs.Trial.{Copied};
ghost use Rattle.hop_worth.specs.Writing.{line_of, Small, seven_of};
ghost use Rattle.hop_worth.specs.Answers.{Worth};

use hop_cells::{Stored, size};
use hop_judge::judge_worth;
use hop_rule::{Refused, Table};
use hop_trial::{Found, copy, trial};

// A signed number is put at place i of the list, and one that is not below zero. The list's places are counted, since lines of seven numbers stand in it one behind the other.
fn put(list: &mut [i32], i: usize, x: i32)
    requires { i < length list.old }
    ensures { list.new ≡ set list.old i x }
{
    list[i] = x;
}

fn put_count(list: &mut [i32], i: usize, x: u32)
    requires { (i < length list.old) × (x < 2147483648) }
    ensures { list.new ≡ set list.old i (pos x) }
{
    put(list, i, x as i32);
}

// The seven numbers of a line, from place `at` on.
fn put_line(list: &mut [i32], at: usize, a: usize, b: usize, f: Found)
    requires { (at + 7 ≤ length list.old) × (a < 40) × (b < 40) × Small f }
    ensures { list.new ≡ sets list.old at (seven_of a b f) }
{
    put_count(list, at, a as u32);
    put_count(list, at + 1, b as u32);
    put_count(list, at + 2, f.passes);
    put_count(list, at + 3, f.deliveries);
    put_count(list, at + 4, f.lost);
    put_count(list, at + 5, f.gained);
    put(list, at + 6, f.change);
}

// State, copy and list go through the three below side by side: one is read and two are written, and the fact about them, `Copied`, is of two of them.
// The line of a and b, behind the i that stand; how many stand then. A pair whose two ends differ has none (02, R-5).
fn line_of(
    s: &[u8],
    x: &mut [u8],
    list: &mut [i32],
    n: usize,
    a: usize,
    b: usize,
    i: usize,
) -> usize
    requires { Copied n s.now x.old × (a < b) × (b < n) × (i + length (line_of (read s.now) a b) ≤ 780) × (7 * (i + length (line_of (read s.now) a b)) ≤ length list.old) }
    ensures { (result ≡ i + length (line_of (read s.now) a b)) × (list.new ≡ sets list.old (7 * i) (numbers (line_of (read s.now) a b))) × (x.new ≡ x.old) }
{
    let state = Stored { bytes: s, n };
    if state.get2(Table::Links, a, b) != state.get2(Table::Links, b, a) {
        return i;
    }
    let f = trial(s, x, n, a, b);
    put_line(list, 7 * i, a, b, f);
    i + 1
}

// The lines of node a with the nodes above it, behind the k that stand.
fn lines_of(s: &[u8], x: &mut [u8], list: &mut [i32], n: usize, a: usize, k: usize) -> usize
    requires { Copied n s.now x.old × (a < n) × (k + length (lines_of (read s.now) a n) ≤ 780) × (7 * (k + length (lines_of (read s.now) a n)) ≤ length list.old) }
    ensures { (result ≡ k + length (lines_of (read s.now) a n)) × (list.new ≡ sets list.old (7 * k) (numbers (lines_of (read s.now) a n))) × (x.new ≡ x.old) }
{
    let mut i = k;
    for b in a + 1..n {
        i = line_of(s, x, list, n, a, b, i);
    }
    i
}

// The lines of all nodes; how many they are.
fn all_lines(s: &[u8], x: &mut [u8], list: &mut [i32], n: usize) -> usize
    requires { Copied n s.now x.old × (length (numbers (lines (read s.now))) ≤ length list.old) }
    ensures { (result ≡ length (lines (read s.now))) × (result ≤ 780) × (list.new ≡ sets list.old 0 (numbers (lines (read s.now)))) × (x.new ≡ x.old) }
{
    let mut k = 0;
    for a in 0..n {
        k = lines_of(s, x, list, n, a, k);
    }
    k
}

// What each link is worth: the number of lines written. The second buffer ends with a copy of the state. Refuses 2, 1, 2, 3, 12, 2.
pub fn worth(s: &[u8], buffer: &mut [u8], list: &mut [i32]) -> Result<u32, Refused>
    ensures { Worth s.now buffer.old list.old result buffer.new list.new }
{
    let n = judge_worth(s, buffer, list)?;
    copy(s, buffer, size(n));
    let lines = all_lines(s, buffer, list, n);
    Ok(lines as u32)
}
