// Why a node reaches a destination in so many hops, or not at all (02, R-3): the path, the set, and the public call, which does not count on its caller.
// What `as` narrows here is proved to fit; `try_from` would add an error that cannot be.
// What writes to a buffer at each turn is a loop: of what a closure has changed a proof knows nothing after `for_each`.
#![tactic(auto)]

ghost use Rattle.std.specs.Prelude.{◌≡◌, ◌+◌, ◌<◌, ◌≤◌, length};
ghost use Rattle.std.proofs.lemmas.List.Edits.{sets};
ghost use Rattle.hop_rule.specs.Words.{those};
ghost use Rattle.hop_rule.specs.Stored.{read_as};
ghost use Rattle.hop_rule.specs.Why as reason;
ghost use Rattle.hop_rule.specs.Why.{along, joined_to};
ghost use Rattle.hop_seen.specs.Seen as seen;
ghost use Rattle.hop_why.specs.Answers.{Why};
ghost use Rattle.hop_why.specs.Writing.{Stays, Hands};

use hop_cells::Stored;
use hop_judge::judge_why;
use hop_rule::Refused;
use hop_seen::{added, has};

// Which reason was written, and how many bytes it has.
#[derive(Clone, Copy)]
pub enum Reason {
    Path(u32),
    Set(u32),
}

// The path from u to v over so many hops, from place `at` on: it calls itself on the downstream, the hop count falling. The state is lent: a `Stored` by value would be copied for each hop, and take 32 bytes of stack more.
#[tactic(auto, using(crate::proofs::Paths::path_more, crate::proofs::Paths::path_one))]
fn path(s: &Stored, list: &mut [u8], u: usize, v: usize, hops: usize, at: usize)
    requires { (v < s.now.n) × (at + hops < length list.old) × Stays (read_as s.now.n s.now.bytes.now) u v hops }
    ensures { list.new ≡ sets list.old at (along (read_as s.now.n s.now.bytes.now) u v hops) }
{
    list[at] = u as u8;
    if 0 < hops {
        let next = usize::from(s.route(u, v).downstream);
        path(s, list, next, v, hops - 1, at + 1);
    }
}

// The nodes joined to u, as a set in one number, and how many they are: counted as they are found, since that a number's bits count them would be a law of its own. Its row is read once.
#[derive(Clone, Copy)]
struct Joined {
    set: u64,
    count: usize,
}

fn joined_to(s: Stored, u: usize) -> Joined
    requires { u < s.n }
    ensures { (those s.entry.n (seen.has result.set) ≡ joined_to (read_as s.entry.n s.entry.bytes.now) u) × (result.count ≡ length (joined_to (read_as s.entry.n s.entry.bytes.now) u)) }
{
    let mut set = 0u64;
    let mut count = 0;
    for x in 0..s.n {
        if usize::from(s.route(u, x).distance) < s.n {
            set = added(set, x as u8);
            count += 1;
        }
    }
    Joined { set, count }
}

// The numbers below n that are in a set, ascending, from the first place on. The place counts them: what is not in the set takes none.
fn put_set(list: &mut [u8], n: usize, set: u64)
    requires { (n ≤ 40) × (length (those n (seen.has set)) ≤ length list.old) }
    ensures { list.new ≡ sets list.old 0 (those n (seen.has set)) }
{
    let mut k = 0;
    for x in 0..n {
        if has(set, x as u8) {
            list[k] = x as u8;
            k += 1;
        }
    }
}

// Each reason is shown if the list holds it, and otherwise refused with 2: the path, which has a byte more than hops,
fn show_path(s: Stored, list: &mut [u8], u: usize, v: usize, hops: usize) -> Result<Reason, Refused>
    requires { (v < s.n) × (hops < s.n) × Stays (read_as s.n s.bytes.now) u v hops }
    ensures { Hands (reason.path (along (read_as s.entry.n s.entry.bytes.now) u v hops)) list.old result list.new }
{
    if list.len() <= hops {
        return Err(Refused::Short);
    }
    path(&s, list, u, v, hops, 0);
    Ok(Reason::Path(hops as u32 + 1))
}

// and the set.
fn show_set(s: Stored, list: &mut [u8], u: usize) -> Result<Reason, Refused>
    requires { u < s.n }
    ensures { Hands (reason.set (joined_to (read_as s.entry.n s.entry.bytes.now) u)) list.old result list.new }
{
    let joined = joined_to(s, u);
    if list.len() < joined.count {
        return Err(Refused::Short);
    }
    put_set(list, s.n, joined.set);
    Ok(Reason::Set(joined.count as u32))
}

// Why u reaches v in so many hops, or not at all: which reason it is, and how many bytes of it were written. Refuses 2, 1, 2, 3, 4, 12, 13, 2.
pub fn why(s: &[u8], u: usize, v: usize, list: &mut [u8]) -> Result<Reason, Refused>
    ensures { Why u v s.now list.old result list.new }
{
    let n = judge_why(s, u, v)?;
    let state = Stored { bytes: s, n };
    let hops = usize::from(state.route(u, v).distance);
    if hops < n {
        show_path(state, list, u, v, hops)
    } else {
        show_set(state, list, u)
    }
}
