// Refusals, in document 01's order: each function judges what the one that it calls left open. No byte is changed, and the first byte is read here only.
// The answer is the node count and not a `Stored`, which the calls that write would take apart again.
#![tactic(auto)]

mod ends;

ghost use Rattle.std.specs.Prelude.{◌≡◌, [], ◌∷◌, not, ◌<◌, eqb, if◌then◌else◌};
ghost use Rattle.hop_rule.specs.declared.Refused.TheVariants.{NotAtRest};
ghost use Rattle.hop_rule.specs.Refused.{number};
ghost use Rattle.hop_rule.specs.Stored as stored;
ghost use Rattle.hop_rule.specs.Calls.{judge, refusals, on_state, no_node, one_node, is_up, not_sending, not_at_rest, short, make, up, down, notice, deliver, status};
ghost use Rattle.hop_rule.specs.Worth.{worth_refusals};
ghost use Rattle.hop_rule.specs.Why.{before_list};
ghost use Rattle.hop_counts.specs.Counts as count;
ghost use Rattle.hop_judge.specs.Verdict.{Judges};

use hop_cells::{Stored, nodes, size};
use hop_counts::queued;
use hop_rule::{Refused, Table};
use hop_sound::is_sound;

// Go on with n nodes, unless a refusal applies.
fn unless(applies: bool, refusal: Refused, n: usize) -> Result<usize, Refused>
    ensures { Judges (if applies then number refusal else 0) n result }
{
    if applies {
        return Err(refusal);
    }
    Ok(n)
}

// Making a state: node count 1, short buffer 2. No byte is read.
pub fn judge_make(s: &[u8], n: usize) -> Result<usize, Refused>
    ensures { Judges (judge (refusals (make n) s.now [])) n result }
{
    if n == 0 {
        return Err(Refused::BadCount);
    }
    if 40 < n {
        return Err(Refused::BadCount);
    }
    unless(s.len() < size(n), Refused::Short, n)
}

// The state's own: empty buffer 2, then 1 and 2 by the count that the first byte claims, not sound 3.
#[tactic(auto, using(crate::proofs::Judging::empty_refused))]
pub fn judge_state(s: &[u8]) -> Result<usize, Refused>
    ensures { Judges (judge (on_state s.now [])) (stored.nodes s.now) result }
{
    if s.len() == 0 {
        return Err(Refused::Short);
    }
    let n = judge_make(s, nodes(s))?;
    let state = Stored { bytes: s, n };
    unless(!is_sound(state), Refused::NotSound, n)
}

// Then a node number 4.
pub fn judge_node(s: &[u8], a: usize) -> Result<usize, Refused>
    ensures { Judges (judge (on_state s.now (no_node s.now a ∷ []))) (stored.nodes s.now) result }
{
    let n = judge_state(s)?;
    unless(n <= a, Refused::NoNode, n)
}

// Two of them.
pub fn judge_pair(s: &[u8], a: usize, b: usize) -> Result<usize, Refused>
    ensures { Judges (judge (on_state s.now (no_node s.now a ∷ no_node s.now b ∷ []))) (stored.nodes s.now) result }
{
    let n = judge_node(s, a)?;
    unless(n <= b, Refused::NoNode, n)
}

// Both ends are one node 5.
pub fn judge_ends(s: &[u8], a: usize, b: usize) -> Result<usize, Refused>
    ensures { Judges (judge (on_state s.now (no_node s.now a ∷ no_node s.now b ∷ one_node a b ∷ []))) (stored.nodes s.now) result }
{
    let n = judge_pair(s, a, b)?;
    unless(a == b, Refused::OneNode, n)
}

// Link up where both ends are up 6,
fn judge_apart(s: &[u8], a: usize, b: usize) -> Result<usize, Refused>
    ensures { Judges (judge (on_state s.now (no_node s.now a ∷ no_node s.now b ∷ one_node a b ∷ is_up s.now a b ∷ []))) (stored.nodes s.now) result }
{
    let n = judge_ends(s, a, b)?;
    let state = Stored { bytes: s, n };
    unless(ends::both_up(state, a, b), Refused::IsUp, n)
}

// or where one of them still is 13.
pub fn judge_up(s: &[u8], a: usize, b: usize) -> Result<usize, Refused>
    ensures { Judges (judge (refusals (up a b) s.now [])) (stored.nodes s.now) result }
{
    let n = judge_apart(s, a, b)?;
    let state = Stored { bytes: s, n };
    unless(ends::differ(state, a, b), Refused::OneEnded, n)
}

// Link down where both ends are down 7.
pub fn judge_down(s: &[u8], a: usize, b: usize) -> Result<usize, Refused>
    ensures { Judges (judge (refusals (down a b) s.now [])) (stored.nodes s.now) result }
{
    let n = judge_ends(s, a, b)?;
    let state = Stored { bytes: s, n };
    unless(!ends::either_up(state, a, b), Refused::IsDown, n)
}

// A notice by an end that is down 7.
pub fn judge_notice(s: &[u8], a: usize, b: usize) -> Result<usize, Refused>
    ensures { Judges (judge (refusals (notice a b) s.now [])) (stored.nodes s.now) result }
{
    let n = judge_ends(s, a, b)?;
    let state = Stored { bytes: s, n };
    unless(state.get2(Table::Links, a, b) != 1, Refused::IsDown, n)
}

// Delivery where an end is down 7,
fn judge_sending(s: &[u8], w: usize, u: usize) -> Result<usize, Refused>
    ensures { Judges (judge (on_state s.now (no_node s.now w ∷ no_node s.now u ∷ one_node w u ∷ not_sending s.now w u ∷ []))) (stored.nodes s.now) result }
{
    let n = judge_ends(s, w, u)?;
    let state = Stored { bytes: s, n };
    unless(!ends::both_up(state, w, u), Refused::IsDown, n)
}

// or from an empty queue 8.
pub fn judge_deliver(s: &[u8], w: usize, u: usize) -> Result<usize, Refused>
    ensures { Judges (judge (refusals (deliver w u) s.now [])) (stored.nodes s.now) result }
{
    let n = judge_sending(s, w, u)?;
    let state = Stored { bytes: s, n };
    unless(
        state.get2(Table::Lengths, w, u) == 0,
        Refused::NothingWaits,
        n,
    )
}

// Last an output that is too short 2.
pub fn judge_status(s: &[u8], u: usize, out: &[u8]) -> Result<usize, Refused>
    ensures { Judges (judge (refusals (status u) s.now out.now)) (stored.nodes s.now) result }
{
    let n = judge_node(s, u)?;
    unless(out.len() < 14, Refused::Short, n)
}

// Go on with n nodes, unless the state is not at rest 12.
fn unless_waiting(s: Stored) -> Result<usize, Refused>
    ensures { Judges (if not (eqb (count.queued s.entry.n s.entry.bytes.now) 0) then number NotAtRest else 0) s.entry.n result }
{
    unless(queued(s) != 0, Refused::NotAtRest, s.n)
}

// A state that is not at rest 12,
fn judge_rest(s: &[u8]) -> Result<usize, Refused>
    ensures { Judges (judge (on_state s.now (not_at_rest s.now ∷ []))) (stored.nodes s.now) result }
{
    let n = judge_state(s)?;
    let state = Stored { bytes: s, n };
    unless_waiting(state)
}

// before a trial buffer that is too short 2
fn judge_trial(s: &[u8], trial: &[u8]) -> Result<usize, Refused>
    ensures { Judges (judge (on_state s.now (not_at_rest s.now ∷ short trial.now (stored.size (stored.nodes s.now)) ∷ []))) (stored.nodes s.now) result }
{
    let n = judge_rest(s)?;
    unless(trial.len() < size(n), Refused::Short, n)
}

// or a list with fewer than seven numbers for each pair that is tried 2.
pub fn judge_worth(s: &[u8], trial: &[u8], list: &[i32]) -> Result<usize, Refused>
    ensures { Judges (judge (worth_refusals s.now trial.now list.now)) (stored.nodes s.now) result }
{
    let n = judge_trial(s, trial)?;
    let state = Stored { bytes: s, n };
    unless(list.len() < 7 * ends::tried(state), Refused::Short, n)
}

// A reason: two node numbers 4, and a state that is not at rest 12,
fn judge_asked(s: &[u8], u: usize, v: usize) -> Result<usize, Refused>
    ensures { Judges (judge (on_state s.now (no_node s.now u ∷ no_node s.now v ∷ not_at_rest s.now ∷ []))) (stored.nodes s.now) result }
{
    let n = judge_pair(s, u, v)?;
    let state = Stored { bytes: s, n };
    unless_waiting(state)
}

// or one with a link that has just one end up 13. A list that cannot hold the reason is judged where its length is known.
pub fn judge_why(s: &[u8], u: usize, v: usize) -> Result<usize, Refused>
    ensures { Judges (judge (before_list u v s.now)) (stored.nodes s.now) result }
{
    let n = judge_asked(s, u, v)?;
    let state = Stored { bytes: s, n };
    unless(!ends::agree(state), Refused::OneEnded, n)
}
