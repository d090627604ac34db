// The public calls that change a state, and check. None counts on its caller: each refuses by document 01's numbers, in its order, or does what hop_rule says.
// What `as` narrows here is proved to fit; `try_from` would add an error that cannot be.
#![tactic(auto)]

ghost use Rattle.hop_rule.specs.Calls as call;
ghost use Rattle.hop_core.specs.Answers.{Told, Passed, Ran};

use hop_cells::Stored;
use hop_judge::{judge_deliver, judge_down, judge_make, judge_notice, judge_state, judge_up};
use hop_rule::Refused;

// A fresh state of n nodes. Refuses 1, 2.
pub fn make(s: &mut [u8], n: usize) -> Result<(), Refused>
    ensures { Told (call.make n) s.old result s.new }
{
    judge_make(s, n)?;
    hop_steps::make(s, n);
    Ok(())
}

// Is the state sound? Refuses 2, 1, 2, 3.
pub fn check(s: &[u8]) -> Result<(), Refused>
    ensures { Told call.check s.now result s.now }
{
    judge_state(s)?;
    Ok(())
}

// The link between a and b, down at both ends, comes up at both. Refuses 2, 1, 2, 3, 4, 5, 6, 13.
pub fn up(s: &mut [u8], a: usize, b: usize) -> Result<(), Refused>
    ensures { Told (call.up a b) s.old result s.new }
{
    let n = judge_up(s, a, b)?;
    hop_steps::link_up(s, n, a, b);
    Ok(())
}

// The link between a and b goes down, at each end that is still up. Refuses 2, 1, 2, 3, 4, 5, 7.
pub fn down(s: &mut [u8], a: usize, b: usize) -> Result<(), Refused>
    ensures { Told (call.down a b) s.old result s.new }
{
    let n = judge_down(s, a, b)?;
    hop_steps::link_down(s, n, a, b);
    Ok(())
}

// 02, R-5: a notices that its link to b is lost; b has its own notice. Refuses 2, 1, 2, 3, 4, 5, 7.
pub fn notice(s: &mut [u8], a: usize, b: usize) -> Result<(), Refused>
    ensures { Told (call.notice a b) s.old result s.new }
{
    let n = judge_notice(s, a, b)?;
    hop_steps::notice(s, n, a, b);
    Ok(())
}

// The head of the queue from w to u is delivered. Refuses 2, 1, 2, 3, 4, 5, 7, 8.
pub fn deliver(s: &mut [u8], w: usize, u: usize) -> Result<(), Refused>
    ensures { Told (call.deliver w u) s.old result s.new }
{
    let n = judge_deliver(s, w, u)?;
    hop_steps::deliver(s, n, w, u);
    Ok(())
}

// One pass: the entries delivered. Refuses 2, 1, 2, 3.
#[tactic(auto, using(hop_judge::proofs::Known::room_known, hop_judge::proofs::Judging::handed_on, crate::proofs::Events::pass_refused))]
pub fn pass(s: &mut [u8]) -> Result<u32, Refused>
    ensures { Passed s.old result s.new }
{
    let nodes = judge_state(s)?;
    let delivered = hop_counts::queued(Stored { bytes: s, n: nodes });
    hop_runs::pass(s, nodes);
    Ok(delivered as u32)
}

// Passes until every queue is empty or the allowance is used up: the passes made and the entries delivered. Refuses 2, 1, 2, 3.
pub fn run(s: &mut [u8], allowance: u8) -> Result<hop_runs::Ran, Refused>
    ensures { Ran allowance s.old result s.new }
{
    let n = judge_state(s)?;
    let ran = hop_runs::run(s, n, u32::from(allowance));
    Ok(ran)
}
