// The public questions about a state: no byte of it changes. None counts on its caller: each refuses by document 01's numbers, in its order, or answers what hop_rule says.
// What `as` narrows here is proved to fit; `try_from` would add an error that cannot be.
#![tactic(auto)]

ghost use Rattle.hop_rule.specs.Calls as call;
ghost use Rattle.hop_ask.specs.Answers.{Asked, Directed, Wrote};

use hop_cells::{Stored, Way};
use hop_judge::{judge_ends, judge_pair, judge_state, judge_status};
use hop_rule::{Refused, Table};

// The route from u to v: 0 and u for u itself, n and 255 where there is none. Refuses 2, 1, 2, 3, 4.
#[tactic(auto, unfolding(hop_rule::specs::Calls::refusals), using(hop_judge::proofs::Known::room_known, hop_judge::proofs::Known::ends_below, hop_judge::proofs::Judging::handed_on, crate::proofs::Asked::route_refused))]
pub fn route(s: &[u8], u: usize, v: usize) -> Result<Way, Refused>
    ensures { Directed u v s.now result }
{
    let n = judge_pair(s, u, v)?;
    let way = Stored { bytes: s, n }.route(u, v);
    Ok(way)
}

// The entries that wait from w to u; 0 where the link is down. Refuses 2, 1, 2, 3, 4, 5.
#[tactic(auto, unfolding(hop_rule::specs::Calls::refusals), using(crate::proofs::Asked::length_asked))]
pub fn queue_length(s: &[u8], w: usize, u: usize) -> Result<u32, Refused>
    ensures { Asked (call.queue_length w u) s.now result }
{
    let n = judge_ends(s, w, u)?;
    Ok(Stored { bytes: s, n }.get2(Table::Lengths, w, u) as u32)
}

// The entries that wait in the whole state. Refuses 2, 1, 2, 3.
#[tactic(auto, unfolding(hop_rule::specs::Calls::refusals), using(crate::proofs::Asked::total_asked))]
pub fn total_queued(s: &[u8]) -> Result<u32, Refused>
    ensures { Asked call.total_queued s.now result }
{
    let n = judge_state(s)?;
    Ok(hop_counts::queued(Stored { bytes: s, n }) as u32)
}

// The status record of node u, written to out: 14 bytes, which is the value. Refuses 2, 1, 2, 3, 4, 2.
pub fn status(s: &[u8], u: usize, out: &mut [u8]) -> Result<u32, Refused>
    ensures { Wrote (call.status u) s.now out.old result out.new }
{
    let n = judge_status(s, u, out)?;
    let state = Stored { bytes: s, n };
    let waiting_for = hop_counts::waiting_for(state, u);
    let waiting_from = hop_counts::waiting_from(state, u);
    let reached = hop_counts::reached(state, u);
    let total = hop_counts::queued(state);
    hop_records::write_status(out, u, waiting_for, waiting_from, reached, total);
    Ok(14)
}
