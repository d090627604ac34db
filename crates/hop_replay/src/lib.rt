// A script of records to the program's text: each event is applied by its public call and printed, and at the end every route.
// A number of 32 bits goes to `usize` by `as`: there is no `From` for it.
// What writes to a buffer at each turn is a loop: of what a closure has changed a proof knows nothing after `for_each`.
#![tactic(auto)]

ghost use Rattle.std.specs.Prelude.{◌≡◌, [], ◌≤◌, ◌<◌, take};
ghost use Rattle.hop_rule.specs.Stored.{read_as};
ghost use Rattle.hop_rule.specs.Refused.{code};
ghost use Rattle.hop_rule.specs.Calls.{outcome};
ghost use Rattle.hop_text.specs.Writing.{Ends, Puts, Wrote};
ghost use Rattle.hop_replay.specs.Replay as replay;
ghost use Rattle.hop_replay.specs.Replay.{call_of, applied_line, events_of, routes_from, route_lines, routes, replayed};

use hop_ask::total_queued;
use hop_cells::Stored;
use hop_judge::judge_state;
use hop_reader::read_from;
use hop_records::Numbers;
use hop_rule::{Event, Refused, code};
use hop_text::Page;

// Applies an event by its call; what a pass delivered is not printed.
#[tactic(auto, unfolding(crate::specs::Replay::call_of), using(crate::proofs::Applied::applied))]
fn apply(state: &mut [u8], e: Event) -> Result<(), Refused>
    ensures { (code result ≡ (outcome (call_of e) state.old []).number) × (state.new ≡ (outcome (call_of e) state.old []).bytes) }
{
    match e {
        Event::Make(n) => hop_core::make(state, usize::from(n)),
        Event::Up(a, b) => hop_core::up(state, usize::from(a), usize::from(b)),
        Event::Down(a, b) => hop_core::down(state, usize::from(a), usize::from(b)),
        Event::Deliver(w, u) => hop_core::deliver(state, usize::from(w), usize::from(u)),
        Event::Pass => hop_core::pass(state).map(|_| ()),
        Event::Notice(a, b) => hop_core::notice(state, usize::from(a), usize::from(b)),
    }
}

// A total that is refused is 0.
fn queued(state: &[u8]) -> usize
    ensures { result ≡ replay.queued state.now }
{
    total_queued(state).unwrap_or(0) as usize
}

// Applies an event, and prints its line.
#[tactic(auto, using(crate::proofs::Applied::applied_line_is))]
fn put_applied(state: &mut [u8], page: &mut Page<'_>, ordinal: usize, e: Event)
    requires { Ends (applied_line ordinal e state.old) page.old.at }
    ensures { Puts (applied_line ordinal e state.old) page.old page.new × (state.new ≡ (outcome (call_of e) state.old []).bytes) }
{
    let number = code(apply(state, e)) as usize;
    let p = Numbers::from(e);
    page.put_event(ordinal, p.kind as usize, number, queued(state));
}

// The records one after another, each through the reader: a refused event is printed and the next is applied, a refused record is printed and ends the reading.
// A loop: 01 has what was read taken apart by `let .. else`.
fn put_events(script: &[u8], state: &mut [u8], page: &mut Page<'_>)
    requires { Ends (events_of script.now state.old).text page.old.at }
    ensures { Puts (events_of script.now state.old).text page.old page.new
        × (state.new ≡ (events_of script.now state.old).bytes) }
{
    let mut place = 0;
    let mut ordinal = 1;
    loop {
        let step = read_from(script, place);
        let Ok(found) = step.reading else {
            let Err(r) = step.reading else {
                return;
            };
            return page.put_event(ordinal, 0, u32::from(r) as usize, queued(state));
        };
        let Some((e, _)) = found else {
            return;
        };
        put_applied(state, page, ordinal, e);
        place = step.next;
        ordinal += 1;
    }
}

// The routes of one node.
#[tactic(auto, using(crate::proofs::Routes::lines))]
fn put_routes_from(state: Stored, u: usize, page: &mut Page<'_>)
    requires { (u < state.n) × Ends (routes_from (read_as state.n state.bytes.now) u) page.old.at }
    ensures { Puts (routes_from (read_as state.entry.n state.entry.bytes.now) u) page.old page.new }
{
    for v in 0..state.n {
        let way = state.route(u, v);
        page.put_route(u, v, usize::from(way.distance), usize::from(way.downstream));
    }
}

// The routes of every node.
#[tactic(auto, using(crate::proofs::Routes::lines))]
fn put_all_routes(state: Stored, page: &mut Page<'_>)
    requires { Ends (route_lines (read_as state.n state.bytes.now)) page.old.at }
    ensures { Puts (route_lines (read_as state.entry.n state.entry.bytes.now)) page.old page.new }
{
    for u in 0..state.n {
        put_routes_from(state, u, page);
    }
}

// The routes, if there is a state.
#[tactic(auto, using(crate::proofs::Checked::printing))]
fn put_routes(state: &[u8], page: &mut Page<'_>)
    requires { Ends (routes state.now) page.old.at }
    ensures { Puts (routes state.now) page.old page.new }
{
    if let Ok(n) = judge_state(state) {
        put_all_routes(Stored { bytes: state, n }, page);
    }
}

// The part of a script that is read.
#[tactic(auto, using(crate::proofs::Input::read_min, crate::proofs::Input::read_whole))]
fn input_of(script: &[u8]) -> &[u8]
    ensures { result.now ≡ take 16384 script.now }
{
    &script[..script.len().min(16384)]
}

// The text of a script, over a fresh state of n = 1.
#[tactic(auto, unfolding(crate::specs::Replay::replayed), using(crate::proofs::Applied::playing))]
fn put_replayed(script: &[u8], state: &mut [u8], page: &mut Page<'_>)
    requires { Ends (replayed script.now state.old).text page.old.at }
    ensures { Puts (replayed script.now state.old).text page.old page.new
        × (state.new ≡ (replayed script.now state.old).bytes) }
{
    let input = input_of(script);
    let _ = hop_core::make(state, 1);
    page.put_header();
    put_events(input, state, page);
    put_routes(state, page);
}

// The text of a script, written to out as far as it has room, over a state in the lent buffer. The answer is the text's length: no text has more than 92,072 bytes.
#[tactic(auto, using(crate::proofs::Short::replaying))]
pub fn replay(script: &[u8], state: &mut [u8], out: &mut [u8]) -> usize
    ensures { Wrote (replayed script.now state.old).text out.old 0 out.new result
        × (state.new ≡ (replayed script.now state.old).bytes)
        × (result ≤ 92072) }
{
    let mut page = Page::new(out);
    put_replayed(script, state, &mut page);
    page.at
}
