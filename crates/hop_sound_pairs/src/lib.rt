// What is judged of two nodes u and w: u's end of their link, u's views from w, and the queue from w to u. The other end and the other queue are judged of w and u.
// n and w are at most 40, so that `as u8` loses nothing, and `try_from` would add an error that cannot be.
#![tactic(auto)]

ghost use Rattle.std.specs.Prelude.{◌≡◌, true, ◌+◌, ◌*◌, ◌-◌, ◌<◌, ◌≤◌};
ghost use Rattle.hop_rule.specs.declared.Table.TheVariants.{Destinations};
ghost use Rattle.hop_rule.specs.Words.{every};
ghost use Rattle.hop_rows.specs.Rows.{row, all_below};
ghost use Rattle.hop_sound_rows.specs.SoundRows.{rising};
ghost use Rattle.hop_sound_pairs.specs.Pairs as check;

use hop_cells::Stored;
use hop_rule::Table;
use hop_sound_rows::Rows;

// The byte of u's end is 0 or 1, and 0 on the diagonal.
fn link_sound(s: Stored, u: usize, w: usize) -> bool
    requires { (u < s.n) × (w < s.n) }
    ensures { result ≡ check.link_sound s.entry.n s.entry.bytes.now u w }
{
    let l = s.get2(Table::Links, u, w);
    if 1 < l {
        return false;
    }
    if u != w {
        return true;
    }
    l == 0
}

// u's end is down: its views from w are n, and the queue is empty.
fn down_sound(s: Stored, u: usize, w: usize) -> bool
    requires { (u < s.n) × (w < s.n) }
    ensures { result ≡ check.down_sound s.entry.n s.entry.bytes.now u w }
{
    if s.get2(Table::Lengths, w, u) != 0 {
        return false;
    }
    hop_rows::all_are(hop_rows::row3(s, Table::Views, u, w), s.n as u8)
}

// Both ends are up and nothing waits: u's views from w are w's distances.
fn idle_sound(s: Stored, u: usize, w: usize) -> bool
    requires { (u < s.n) × (w < s.n) }
    ensures { result ≡ check.idle_sound s.entry.n s.entry.bytes.now u w }
{
    hop_rows::row3(s, Table::Views, u, w) == hop_rows::row2(s, Table::Distances, w)
}

// Both ends are up and m entries wait: once they are delivered, u's views from w are w's distances.
fn told_sound(s: Stored, u: usize, w: usize, m: usize) -> bool
    requires { (u < s.n) × (w < s.n) × (m ≤ s.n) × (all_below s.bytes.now (row s.n Destinations (w * s.n + u)) m s.n ≡ true) }
    ensures { result ≡ check.told_sound s.entry.n s.entry.bytes.now u w m }
{
    hop_sound_rows::all_told(
        hop_rows::row3(s, Table::Views, u, w),
        hop_rows::row2(s, Table::Distances, w),
        &hop_rows::row3(s, Table::Destinations, w, u)[..m],
        &hop_rows::row3(s, Table::Values, w, u)[..m],
    )
}

// Ascending destinations differ, and the last is the greatest.
fn ordered_sound(s: Stored, u: usize, w: usize, m: usize) -> bool
    requires { (u < s.n) × (w < s.n) × (m ≤ s.n) × (0 < m) × (rising s.bytes.now (row s.n Destinations (w * s.n + u)) (m - 1) ≡ true) }
    ensures { result ≡ check.busy_sound s.entry.n s.entry.bytes.now u w m }
{
    if s.n <= s.get3(Table::Destinations, w, u, m - 1) {
        return false;
    }
    told_sound(s, u, w, m)
}

// Destinations in any order.
fn mixed_sound(s: Stored, u: usize, w: usize, m: usize) -> bool
    requires { (u < s.n) × (w < s.n) × (m ≤ s.n) }
    ensures { result ≡ check.busy_sound s.entry.n s.entry.bytes.now u w m }
{
    let destinations = &hop_rows::row3(s, Table::Destinations, w, u)[..m];
    if !hop_rows::all_below(destinations, s.n as u8) {
        return false;
    }
    if !hop_seen::differing(destinations) {
        return false;
    }
    told_sound(s, u, w, m)
}

// A full queue in any order. With fewer than 5 nodes a byte that is no destination could point past the buffer; below 8 the queue is judged as one that is not full.
fn mixed_full_sound(s: Stored, u: usize, w: usize) -> bool
    requires { (u < s.n) × (w < s.n) }
    ensures { result ≡ check.busy_sound s.entry.n s.entry.bytes.now u w s.entry.n }
{
    if s.n < 8 {
        return mixed_sound(s, u, w, s.n);
    }
    hop_seen::full(
        hop_rows::from_row2(s, Table::Distances, w),
        hop_rows::row3(s, Table::Destinations, w, u),
        hop_rows::row3(s, Table::Values, w, u),
    )
}

// A full queue as link up puts it counts up, and value v is the one for v. One that does not start at 0 is in another order.
fn full_sound(s: Stored, u: usize, w: usize) -> bool
    requires { (u < s.n) × (w < s.n) }
    ensures { result ≡ check.busy_sound s.entry.n s.entry.bytes.now u w s.entry.n }
{
    let destinations = hop_rows::row3(s, Table::Destinations, w, u);
    if destinations[0] == 0 {
        if hop_sound_rows::counting(destinations) {
            return hop_rows::row3(s, Table::Values, w, u) == hop_rows::row2(s, Table::Distances, w);
        }
    }
    mixed_full_sound(s, u, w)
}

// A full queue needs no view, and so comes first; a part of one that rises needs no set.
fn busy_sound(s: Stored, u: usize, w: usize, m: usize) -> bool
    requires { (u < s.n) × (w < s.n) × (m ≤ s.n) × (0 < m) }
    ensures { result ≡ check.busy_sound s.entry.n s.entry.bytes.now u w m }
{
    if m == s.n {
        return full_sound(s, u, w);
    }
    if hop_sound_rows::rising(&hop_rows::row3(s, Table::Destinations, w, u)[..m]) {
        return ordered_sound(s, u, w, m);
    }
    mixed_sound(s, u, w, m)
}

fn queue_sound(s: Stored, u: usize, w: usize) -> bool
    requires { (u < s.n) × (w < s.n) }
    ensures { result ≡ check.queue_sound s.entry.n s.entry.bytes.now u w }
{
    let m = s.get2(Table::Lengths, w, u);
    if m == 0 {
        return idle_sound(s, u, w);
    }
    if s.n < m {
        return false;
    }
    busy_sound(s, u, w, m)
}

// What waits for an end that is up: nothing, where w's end is down.
fn waiting_sound(s: Stored, u: usize, w: usize) -> bool
    requires { (u < s.n) × (w < s.n) }
    ensures { result ≡ check.waiting_sound s.entry.n s.entry.bytes.now u w }
{
    if s.get2(Table::Links, w, u) == 1 {
        return queue_sound(s, u, w);
    }
    s.get2(Table::Lengths, w, u) == 0
}

// u's end is up: what waits, and that u's views from w allow u's routes, those of a lone end too.
fn up_sound(s: Stored, u: usize, w: usize) -> bool
    requires { (u < s.n) × (w < s.n) }
    ensures { result ≡ check.up_sound s.entry.n s.entry.bytes.now u w }
{
    if !waiting_sound(s, u, w) {
        return false;
    }
    let rows = Rows {
        views: hop_rows::row3(s, Table::Views, u, w),
        distances: hop_rows::row2(s, Table::Distances, u),
        downstreams: hop_rows::row2(s, Table::Downstreams, u),
    };
    rows.allow(s.n as u8, w as u8)
}

fn pair_sound(s: Stored, u: usize, w: usize) -> bool
    requires { (u < s.n) × (w < s.n) }
    ensures { result ≡ check.pair_sound s.entry.n s.entry.bytes.now u w }
{
    if !link_sound(s, u, w) {
        return false;
    }
    if s.get2(Table::Links, u, w) == 1 {
        return up_sound(s, u, w);
    }
    down_sound(s, u, w)
}

pub fn pairs_sound(s: Stored, u: usize) -> bool
    requires { u < s.n }
    ensures { result ≡ every s.entry.n (check.pair_sound s.entry.n s.entry.bytes.now u) }
{
    (0..s.n).all(|w| pair_sound(s, u, w))
}
