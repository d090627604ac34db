// What is judged of a node: its views, its pairs, its routes, and the places of the queues that it sends on.

ghost use Rattle.std.specs.Prelude.{◌≡◌, ◌<◌};
ghost use Rattle.hop_rule.specs.Words.{every};
ghost use Rattle.hop_sound.specs.Check as check;

use hop_cells::Stored;
use hop_rule::Table;

// u's views are at most n: all at once, since long runs of bytes are judged fastest. n is at most 40, so that `as u8` loses nothing.
fn views_sound(s: Stored, u: usize) -> bool
    requires { u < s.n }
    ensures { result ≡ check.views_sound s.entry.n s.entry.bytes.now u }
{
    hop_rows::all_below(hop_rows::block(s, Table::Views, u), s.n as u8 + 1)
}

// u's route to v: its own; or none, at distance n; or by way of an up neighbour that gives the distance.
fn route_sound(s: Stored, u: usize, v: usize) -> bool
    requires { (u < s.n) × (v < s.n) }
    ensures { result ≡ check.route_sound s.entry.n s.entry.bytes.now u v }
{
    let d = s.get2(Table::Distances, u, v);
    let h = s.get2(Table::Downstreams, u, v);
    if u == v {
        if d == 0 {
            return h == u;
        }
        return false;
    }
    if d == s.n {
        return h == 255;
    }
    if s.n <= d {
        return false;
    }
    if s.n <= h {
        return false;
    }
    if s.get2(Table::Links, u, h) != 1 {
        return false;
    }
    s.get3(Table::Views, u, h, v) + 1 == d
}

fn routes_sound(s: Stored, u: usize) -> bool
    requires { u < s.n }
    ensures { result ≡ every s.entry.n (check.route_sound s.entry.n s.entry.bytes.now u) }
{
    (0..s.n).all(|v| route_sound(s, u, v))
}

// Places past the length are 0 in both blocks, in the queue from w to u.
fn past_sound(s: Stored, w: usize, u: usize) -> bool
    requires { (w < s.n) × (u < s.n) }
    ensures { result ≡ check.past_sound s.entry.n s.entry.bytes.now w u }
{
    let m = s.get2(Table::Lengths, w, u);
    if s.n < m {
        return false;
    }
    hop_rows::both_are(
        &hop_rows::row3(s, Table::Destinations, w, u)[m..],
        &hop_rows::row3(s, Table::Values, w, u)[m..],
        0,
    )
}

fn pasts_sound(s: Stored, w: usize) -> bool
    requires { w < s.n }
    ensures { result ≡ every s.entry.n (check.past_sound s.entry.n s.entry.bytes.now w) }
{
    (0..s.n).all(|u| past_sound(s, w, u))
}

// The same of all queues of w: at once, where none of them holds anything.
fn sent_sound(s: Stored, w: usize) -> bool
    requires { w < s.n }
    ensures { result ≡ check.sent_sound s.entry.n s.entry.bytes.now w }
{
    if !hop_rows::all_are(hop_rows::row2(s, Table::Lengths, w), 0) {
        return pasts_sound(s, w);
    }
    hop_rows::both_are(
        hop_rows::block(s, Table::Destinations, w),
        hop_rows::block(s, Table::Values, w),
        0,
    )
}

pub fn node_sound(s: Stored, u: usize) -> bool
    requires { u < s.n }
    ensures { result ≡ check.node_sound s.entry.n s.entry.bytes.now u }
{
    if !views_sound(s, u) {
        return false;
    }
    if !hop_sound_pairs::pairs_sound(s, u) {
        return false;
    }
    if !routes_sound(s, u) {
        return false;
    }
    sent_sound(s, u)
}
