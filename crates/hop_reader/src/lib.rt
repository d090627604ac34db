// Records read one after another, through a reader that keeps the lent bytes together with its place. Thin over hop_records' read_event.
#![tactic(auto)]

ghost use Rattle.std.specs.Prelude.{◌≡◌};
ghost use Rattle.hop_reader.specs.Stepping.{MadeAt, ReadsNext, step_at};

use hop_records::read_event;
use hop_rule::{Event, Refused};

// What was read at a place, and the place to read at next.
#[derive(Drop)]
pub struct Step {
    pub reading: Result<Option<(Event, usize)>, Refused>,
    pub next: usize,
}

// The lent bytes together with the place of the next record.
#[derive(Drop)]
pub struct Reader<'a> {
    pub src: &'a [u8],
    pub at: usize,
}

// A reader at a place: at 0 the first record is read next. A function, and read_next too: the manual and hop_c/specs/Determined name them so.
pub fn reader_at<'a>(src: &'a [u8], at: usize) -> Reader<'a>
    ensures { MadeAt src.entry at result.src result.at }
{
    Reader { src, at }
}

// Reads the record at the reader's place, and moves the place past it. The end or a refusal leaves the place as it was.
#[tactic(auto, unfolding(hop_rule::specs::Records::place_after))]
pub fn read_next<'s, 'a>(r: &'s mut Reader<'a>) -> Result<Option<(Event, usize)>, Refused>
    ensures { ReadsNext r.old.src.now r.old.src r.old.at result r.new.src r.new.at }
{
    let found = read_event(r.src, r.at)?;
    if let Some((_, next)) = found {
        r.at = next;
    }
    Ok(found)
}

// One record through a reader, for callers that keep bytes and place themselves, as C's do.
pub fn read_from(s: &[u8], at: usize) -> Step
    ensures { result ≡ step_at s.now at }
{
    let mut r = reader_at(s, at);
    let reading = read_next(&mut r);
    Step {
        reading,
        next: r.at,
    }
}
