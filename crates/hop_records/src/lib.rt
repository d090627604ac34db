// Event and status records as bytes, written and read. The one place in the code that knows an event's kind, length and numbers.
// What `as` narrows here is proved to fit; `try_from` would add an error that cannot be. A place goes beside the bytes where records are read one after another: 01's reader keeps it.
#![tactic(auto)]

ghost use Rattle.std.specs.Prelude.{◌≡◌, true, [], ◌∷◌, ◌+◌, ◌*◌, ◌<◌, ◌≤◌, length};
ghost use Rattle.std.proofs.lemmas.List.Edits.{sets};
ghost use Rattle.hop_rule.specs.Records.{words, word_at, record_of, known, length_of, event_at, read_event, written};
ghost use Rattle.hop_rule.specs.Calls.{write_event, outcome};
ghost use Rattle.hop_records.specs.Writing.{Writes, tried, numbers_of, wrote_event};

use hop_rule::{Event, Refused};

// An event in plain numbers: its kind and its two numbers, 0 where the kind has none.
#[derive(Drop)]
pub struct Numbers {
    pub kind: u32,
    pub first: u16,
    pub second: u16,
}

impl From<Event> for Numbers {
    ghost from_gives = { λ e p. p ≡ numbers_of e };

    #[tactic(auto, unfolding(hop_rule::specs::Records::kind_of, hop_rule::specs::Records::body_of))]
    fn from(e: Event) -> Numbers {
        let (kind, first, second) = match e {
            Event::Make(n) => (15, n, 0),
            Event::Up(a, b) => (16, a, b),
            Event::Down(a, b) => (17, a, b),
            Event::Deliver(w, u) => (18, w, u),
            Event::Pass => (19, 0, 0),
            Event::Notice(a, b) => (20, a, b),
        };
        Numbers {
            kind,
            first,
            second,
        }
    }
}

// One little-endian 16-bit number at a place. Byte by byte: with `copy_from_slice` a thousand records took 1.18 of a careful Rust's time, and 1.15 is the bar (docs/PERFORMANCE.md).
#[tactic(auto, unfolding(hop_rule::specs::Records::words))]
fn write_word(out: &mut [u8], at: usize, x: u16)
    requires { at + 2 ≤ length out.old }
    ensures { out.new ≡ sets out.old at (words (x ∷ [])) }
{
    let [low, high] = x.to_le_bytes();
    out[at] = low;
    out[at + 1] = high;
}

// A record at the start of an output that has room for it: its length, its kind, and its body's numbers.
fn put_record<const N: usize>(kind: u16, body: [u16; N], out: &mut [u8])
    requires { (N ≤ 5) × (4 + 2 * N ≤ length out.old) }
    ensures { out.new ≡ written (record_of kind body.entry) out.old }
{
    write_word(out, 0, (2 + 2 * N) as u16);
    write_word(out, 2, kind);
    for (i, x) in body.iter().enumerate() {
        write_word(out, 4 + 2 * i, *x);
    }
}

// A record, where there is room for it.
#[tactic(auto, unfolding(crate::specs::Writing::tried), using(crate::proofs::Stores::length_record))]
fn write_record<const N: usize>(kind: u16, body: [u16; N], out: &mut [u8]) -> Result<u32, Refused>
    requires { N ≤ 5 }
    ensures { Writes (tried (record_of kind body.entry) out.old) result out.new }
{
    if out.len() < 4 + 2 * N {
        return Err(Refused::Short);
    }
    put_record(kind, body, out);
    Ok((4 + 2 * N) as u32)
}

// Writing the event that a kind and two numbers say, for callers that have it so. A kind is a number, as in C's call and in the bytes: an enum of the kinds would be one more match from a number, and one back.
#[tactic(auto, unfolding(crate::specs::Writing::wrote_event, hop_rule::specs::Records::known), using(crate::proofs::Known::make_written, crate::proofs::Known::pass_written, crate::proofs::Known::pair_written))]
pub fn write_kind(kind: u32, first: u16, second: u16, out: &mut [u8]) -> Result<u32, Refused>
    ensures { Writes (wrote_event kind first second out.old) result out.new }
{
    match kind {
        15 => write_record(15, [first], out),
        16 | 17 | 18 | 20 => write_record(kind as u16, [first, second], out),
        19 => write_record(19, [], out),
        ..15 | 21.. => Err(Refused::UnknownKind),
    }
}

// Writing an event, for callers in Rattle. It needs its length + 2 bytes; the bytes after them stay.
#[tactic(auto, using(crate::proofs::Known::own_written))]
pub fn write_event(e: Event, out: &mut [u8]) -> Result<u32, Refused>
    ensures { Writes (outcome (write_event e) [] out.old) result out.new }
{
    let Numbers {
        kind,
        first,
        second,
    } = Numbers::from(e);
    write_kind(kind, first, second, out)
}

// The status record, where there is room for its 14 bytes.
pub fn write_status(
    out: &mut [u8],
    node: usize,
    waiting_for: usize,
    waiting_from: usize,
    reached: usize,
    total: usize,
)
    requires { (14 ≤ length out.old) × (node < 65536) × (waiting_for < 65536) × (waiting_from < 65536) × (reached < 65536) × (total < 65536) }
    ensures { out.new ≡ written (record_of 1 (node ∷ waiting_for ∷ waiting_from ∷ reached ∷ total ∷ [])) out.old }
{
    let body = [
        node as u16,
        waiting_for as u16,
        waiting_from as u16,
        reached as u16,
        total as u16,
    ];
    put_record(1, body, out);
}

// One little-endian 16-bit number from a place.
#[tactic(auto, unfolding(hop_rule::specs::Records::word_at))]
fn word_at(s: &[u8], at: usize) -> u16
    requires { at + 2 ≤ length s.now }
    ensures { result ≡ word_at s.now at }
{
    u16::from_le_bytes([s[at], s[at + 1]])
}

// The length of a known kind's record.
#[tactic(auto, unfolding(hop_rule::specs::Records::length_of))]
fn length_of(kind: u16) -> u16
    ensures { result ≡ length_of kind }
{
    match kind {
        15 => 4,
        19 => 2,
        _ => 6,
    }
}

// The event of a kind, from its body at a place.
#[tactic(auto, unfolding(hop_rule::specs::Records::length_of, hop_rule::specs::Records::event_of))]
fn event_at(kind: u16, s: &[u8], at: usize) -> Event
    requires { at + length_of kind ≤ 2 + length s.now }
    ensures { result ≡ event_at kind s.now at }
{
    match kind {
        15 => Event::Make(word_at(s, at)),
        16 => Event::Up(word_at(s, at), word_at(s, at + 2)),
        17 => Event::Down(word_at(s, at), word_at(s, at + 2)),
        18 => Event::Deliver(word_at(s, at), word_at(s, at + 2)),
        19 => Event::Pass,
        _ => Event::Notice(word_at(s, at), word_at(s, at + 2)),
    }
}

// Reading a record of a known kind, which tells its length and so the next place.
#[tactic(auto, unfolding(hop_rule::specs::Records::read_event))]
fn read_known(kind: u16, s: &[u8], place: usize) -> Result<Option<(Event, usize)>, Refused>
    requires { (place + 4 ≤ length s.now) × (word_at s.now (place + 2) ≡ kind) × (known kind ≡ true) }
    ensures { result ≡ read_event s.now place }
{
    let size = length_of(kind);
    if word_at(s, place) != size {
        return Err(Refused::WrongLength);
    }
    let whole = 2 + usize::from(size);
    if s.len() - place < whole {
        return Err(Refused::CutShort);
    }
    Ok(Some((event_at(kind, s, place + 4), place + whole)))
}

// Reading where at least a length and a kind are left. A way for each kind, in which its length is fixed: with one way for all, whose length is looked up, the next record waits for it, and a thousand took 0.75 of a careful Rust's time instead of 0.72.
#[tactic(auto, unfolding(hop_rule::specs::Records::read_event, hop_rule::specs::Records::known))]
fn read_record(s: &[u8], place: usize) -> Result<Option<(Event, usize)>, Refused>
    requires { place + 4 ≤ length s.now }
    ensures { result ≡ read_event s.now place }
{
    match word_at(s, place + 2) {
        15 => read_known(15, s, place),
        16 => read_known(16, s, place),
        17 => read_known(17, s, place),
        18 => read_known(18, s, place),
        19 => read_known(19, s, place),
        20 => read_known(20, s, place),
        _ => Err(Refused::UnknownKind),
    }
}

// Reading at any place: an event and the place after its record, or none where the bytes end. No test adds to the place before it is known to lie within the bytes.
#[tactic(auto, unfolding(hop_rule::specs::Records::read_event))]
pub fn read_event(s: &[u8], place: usize) -> Result<Option<(Event, usize)>, Refused>
    ensures { result ≡ read_event s.now place }
{
    if place < s.len() {
        if s.len() - place < 4 {
            Err(Refused::CutShort)
        } else {
            read_record(s, place)
        }
    } else if place == s.len() {
        Ok(None)
    } else {
        Err(Refused::CutShort)
    }
}
