// The calls that C, C++ and Rust programs link: each is one call of the proved core, with the same definition in its contract, and counts on nothing.
// Names, parameter order and widths are fixed: a call stays as it is, or goes by a change request, and then no program that names it links.
// Numbers and kinds are numbers here, and a place for each answer is 0 at a refusal: that is what C reads.
#![tactic(auto)]

ghost use Rattle.std.specs.Prelude.{◌≡◌, [], ◌∷◌};
ghost use Rattle.hop_rule.specs.Calls as call;
ghost use Rattle.hop_rule.specs.Calls.{outcome};
ghost use Rattle.hop_rule.specs.Records.{kind_of, body_of};
ghost use Rattle.hop_rule.specs.Worth as worth;
ghost use Rattle.hop_rule.specs.Why as why;
ghost use Rattle.hop_core.specs.Answers as core;
ghost use Rattle.hop_ask.specs.Answers.{asked, directed};
ghost use Rattle.hop_why.specs.Answers.{explained};
ghost use Rattle.hop_records.specs.Writing.{wrote_event};
ghost use Rattle.hop_c.specs.Edge.{size_of, Told, answer, ran, way, Answered, Ran, Wrote, Worth, why_reason, Why, event, reading, Read};

use hop_cells::{Way, size};
use hop_reader::read_from;
use hop_records::{Numbers, write_kind};
use hop_rule::{Event, Refused, code};
use hop_why::Reason;

// A number, and one answer.
#[repr(C)]
#[derive(Clone, Copy)]
pub struct HopAnswer {
    pub code: u32,
    pub value: u32,
}

// What a run did.
#[repr(C)]
#[derive(Clone, Copy)]
pub struct HopRan {
    pub code: u32,
    pub passes: u32,
    pub deliveries: u32,
}

// A way to a destination: its hops, and the neighbour to send through.
#[repr(C)]
#[derive(Clone, Copy)]
pub struct HopWay {
    pub code: u32,
    pub distance: u32,
    pub downstream: u32,
}

// An event that was read; kind 0 at the plain end and at a refusal.
#[repr(C)]
#[derive(Clone, Copy)]
pub struct HopEvent {
    pub code: u32,
    pub kind: u32,
    pub first: u32,
    pub second: u32,
}

// Why a node reaches a destination in so many hops, or not at all; kind 1 a path, 2 a set, 0 at a refusal.
#[repr(C)]
#[derive(Clone, Copy)]
pub struct HopReason {
    pub code: u32,
    pub kind: u32,
    pub count: u32,
}

// Each of the core's answers as the struct that says the same; no byte has a part in it.
impl From<Result<u32, Refused>> for HopAnswer {
    ghost from_gives = { λ a r. r ≡ answer (asked a [] []) };

    fn from(a: Result<u32, Refused>) -> HopAnswer {
        match a {
            Ok(value) => HopAnswer { code: 0, value },
            Err(r) => HopAnswer {
                code: u32::from(r),
                value: 0,
            },
        }
    }
}

impl From<Result<hop_runs::Ran, Refused>> for HopRan {
    ghost from_gives = { λ a r. r ≡ ran (core.ran a []) };

    fn from(a: Result<hop_runs::Ran, Refused>) -> HopRan {
        match a {
            Ok(did) => HopRan {
                code: 0,
                passes: did.passes,
                deliveries: did.deliveries,
            },
            Err(r) => HopRan {
                code: u32::from(r),
                passes: 0,
                deliveries: 0,
            },
        }
    }
}

impl From<Result<Way, Refused>> for HopWay {
    ghost from_gives = { λ a r. r ≡ way (directed a []) };

    fn from(a: Result<Way, Refused>) -> HopWay {
        match a {
            Ok(found) => HopWay {
                code: 0,
                distance: u32::from(found.distance),
                downstream: u32::from(found.downstream),
            },
            Err(r) => HopWay {
                code: u32::from(r),
                distance: 0,
                downstream: 0,
            },
        }
    }
}

impl From<Result<Reason, Refused>> for HopReason {
    ghost from_gives = { λ a r. r ≡ why_reason (explained a []) };

    fn from(a: Result<Reason, Refused>) -> HopReason {
        match a {
            Ok(Reason::Path(count)) => HopReason {
                code: 0,
                kind: 1,
                count,
            },
            Ok(Reason::Set(count)) => HopReason {
                code: 0,
                kind: 2,
                count,
            },
            Err(r) => HopReason {
                code: u32::from(r),
                kind: 0,
                count: 0,
            },
        }
    }
}

impl From<Event> for HopEvent {
    ghost from_gives = { λ e r. r ≡ event 0 (kind_of e ∷ body_of e) };

    fn from(e: Event) -> HopEvent {
        let p = Numbers::from(e);
        HopEvent {
            code: 0,
            kind: p.kind,
            first: u32::from(p.first),
            second: u32::from(p.second),
        }
    }
}

impl From<Result<Option<(Event, usize)>, Refused>> for HopEvent {
    ghost from_gives = { λ a r. r ≡ reading a };

    #[tactic(auto, unfolding(hop_rule::specs::Records::answers_of))]
    fn from(a: Result<Option<(Event, usize)>, Refused>) -> HopEvent {
        match a {
            Ok(Some((e, _))) => HopEvent::from(e),
            Ok(None) => HopEvent {
                code: 0,
                kind: 0,
                first: 0,
                second: 0,
            },
            Err(r) => HopEvent {
                code: u32::from(r),
                kind: 0,
                first: 0,
                second: 0,
            },
        }
    }
}

// The bytes of a state of n nodes; 0 unless n is 1 to 40. Never refuses.
#[unsafe(no_mangle)]
pub extern "C" fn hop_size(n: usize) -> usize
    ensures { result ≡ size_of n }
{
    if n == 0 {
        return 0;
    }
    if 40 < n {
        return 0;
    }
    size(n)
}

// The events, and check.
#[unsafe(no_mangle)]
pub extern "C" fn hop_make(state: &mut [u8], n: usize) -> u32
    ensures { Told (call.make n) state.old result state.new }
{
    code(hop_core::make(state, n))
}

#[unsafe(no_mangle)]
pub extern "C" fn hop_check(state: &[u8]) -> u32
    ensures { Told call.check state.now result state.now }
{
    code(hop_core::check(state))
}

#[unsafe(no_mangle)]
pub extern "C" fn hop_up(state: &mut [u8], a: usize, b: usize) -> u32
    ensures { Told (call.up a b) state.old result state.new }
{
    code(hop_core::up(state, a, b))
}

#[unsafe(no_mangle)]
pub extern "C" fn hop_down(state: &mut [u8], a: usize, b: usize) -> u32
    ensures { Told (call.down a b) state.old result state.new }
{
    code(hop_core::down(state, a, b))
}

#[unsafe(no_mangle)]
pub extern "C" fn hop_notice(state: &mut [u8], noticing: usize, other: usize) -> u32
    ensures { Told (call.notice noticing other) state.old result state.new }
{
    code(hop_core::notice(state, noticing, other))
}

#[unsafe(no_mangle)]
pub extern "C" fn hop_deliver(state: &mut [u8], from: usize, to: usize) -> u32
    ensures { Told (call.deliver from to) state.old result state.new }
{
    code(hop_core::deliver(state, from, to))
}

#[unsafe(no_mangle)]
pub extern "C" fn hop_pass(state: &mut [u8]) -> HopAnswer
    ensures { Answered (outcome call.pass state.old []) result state.new }
{
    HopAnswer::from(hop_core::pass(state))
}

#[unsafe(no_mangle)]
pub extern "C" fn hop_run(state: &mut [u8], allowance: u8) -> HopRan
    ensures { Ran (outcome (call.run allowance) state.old []) result state.new }
{
    HopRan::from(hop_core::run(state, allowance))
}

// The questions.
#[unsafe(no_mangle)]
pub extern "C" fn hop_route(state: &[u8], node: usize, destination: usize) -> HopWay
    ensures { result ≡ way (outcome (call.route node destination) state.now []) }
{
    HopWay::from(hop_ask::route(state, node, destination))
}

#[unsafe(no_mangle)]
pub extern "C" fn hop_queue_length(state: &[u8], from: usize, to: usize) -> HopAnswer
    ensures { result ≡ answer (outcome (call.queue_length from to) state.now []) }
{
    HopAnswer::from(hop_ask::queue_length(state, from, to))
}

#[unsafe(no_mangle)]
pub extern "C" fn hop_total_queued(state: &[u8]) -> HopAnswer
    ensures { result ≡ answer (outcome call.total_queued state.now []) }
{
    HopAnswer::from(hop_ask::total_queued(state))
}

// What each link is worth.
#[unsafe(no_mangle)]
pub extern "C" fn hop_worth(state: &[u8], trial: &mut [u8], lines: &mut [i32]) -> HopAnswer
    ensures { Worth (worth.worth state.now trial.old lines.old) result trial.new lines.new }
{
    HopAnswer::from(hop_worth::worth(state, trial, lines))
}

// Why a node reaches a destination in so many hops, or not at all.
#[unsafe(no_mangle)]
pub extern "C" fn hop_why(
    state: &[u8],
    node: usize,
    destination: usize,
    list: &mut [u8],
) -> HopReason
    ensures { Why (why.why node destination state.now list.old) result list.new }
{
    HopReason::from(hop_why::why(state, node, destination, list))
}

// The records.
#[unsafe(no_mangle)]
pub extern "C" fn hop_status(state: &[u8], node: usize, out: &mut [u8]) -> HopAnswer
    ensures { Wrote (outcome (call.status node) state.now out.old) result out.new }
{
    HopAnswer::from(hop_ask::status(state, node, out))
}

#[unsafe(no_mangle)]
pub extern "C" fn hop_write_event(kind: u32, first: u16, second: u16, out: &mut [u8]) -> HopAnswer
    ensures { Wrote (wrote_event kind first second out.old) result out.new }
{
    HopAnswer::from(write_kind(kind, first, second, out))
}

#[unsafe(no_mangle)]
pub extern "C" fn hop_read_event(bytes: &[u8], place: &mut usize) -> HopEvent
    ensures { Read bytes.now place.old result place.new }
{
    let step = read_from(bytes, *place);
    *place = step.next;
    HopEvent::from(step.reading)
}
