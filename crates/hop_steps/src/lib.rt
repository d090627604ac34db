// The events on the bytes of a stored state: recompute, deliver, link up, one end's notice that a link is lost, link down by notices; and a fresh state.
// What `as` narrows here is proved to fit; `try_from` would add an error that cannot be.
// Bytes that are written come apart from their count: see `Stored` in hop_cells for what a struct of the two costs.
// `Room` with nodes below n is all that these ask for: a type for a node would have to carry the count that it is below.
// What writes to a buffer at each turn is a loop: of what a closure has changed a proof knows nothing after `for_each`.
#![tactic(auto)]

ghost use Rattle.std.specs.Prelude.{◌≡◌, ℕ, ◌+◌, ◌*◌, ◌<◌, ◌≤◌, length, get_or, set};
ghost use Rattle.hop_rule.specs.declared.Table.TheVariants.{Views};
ghost use Rattle.hop_cells.specs.Cells.{Room, cells, put3};
ghost use Rattle.hop_steps.specs.Steps as step;

use hop_cells::{Stored, Way, cube, fill, fill_cells, pair, put2, square, start, triple};
use hop_queues::{empty, held, offer_all, send, take_first};
use hop_rule::Table;

// Neighbour w is looked at for what recompute finds for a destination, after those below it, which gave b.
#[tactic(auto, unfolding(crate::specs::Steps::nearer))]
fn nearer(s: Stored, u: usize, v: usize, w: usize, b: Way) -> Way
    requires { (u < s.n) × (v < s.n) × (w < s.n) }
    ensures { result ≡ step.nearer s.entry.n u v s.entry.bytes.now w b }
{
    if s.get2(Table::Links, u, w) == 1 {
        let d = s.get3(Table::Views, u, w, v) + 1;
        if d < usize::from(b.distance) {
            return Way {
                distance: d as u8,
                downstream: w as u8,
            };
        }
    }
    b
}

// The least distance of v at u, and the lowest neighbour that gives it. A loop: `nearer` goes on from what those below gave, and a fold of it reads no plainer.
#[tactic(auto, unfolding(crate::specs::Steps::best), using(hop_laws::proofs::Words::loop_none, hop_laws::proofs::Words::loop_turn, hop_cells::proofs::Loops::loop_end))]
fn find_best(s: Stored, u: usize, v: usize) -> Way
    requires { (u < s.n) × (v < s.n) }
    ensures { result ≡ step.best s.entry.n u v s.entry.bytes.now }
{
    let mut b = Way {
        distance: s.n as u8,
        downstream: 255,
    };
    for w in 0..s.n {
        b = nearer(s, u, v, w, b);
    }
    b
}

// The distance and the downstream of v at u become those of b.
#[tactic(auto, unfolding(crate::specs::Steps::store))]
fn store(s: &mut [u8], n: usize, u: usize, v: usize, b: Way)
    requires { Room n s.old × (u < n) × (v < n) }
    ensures { s.new ≡ step.store n u v b s.old }
{
    put2(s, n, Table::Distances, u, v, b.distance);
    put2(s, n, Table::Downstreams, u, v, b.downstream);
}

// The entry (v, d) is sent from u to w, if that link is up at both ends: towards an end that is down it is dropped.
#[tactic(auto, unfolding(crate::specs::Steps::tell_one))]
fn tell_one(s: &mut [u8], n: usize, u: usize, v: usize, d: u8, w: usize)
    requires { Room n s.old × (u < n) × (v < n) × (w < n) }
    ensures { s.new ≡ step.tell_one n u v d w s.old }
{
    let state = Stored { bytes: s, n };
    if state.get2(Table::Links, u, w) == 1 && state.get2(Table::Links, w, u) == 1 {
        send(s, n, u, w, v, d);
    }
}

// And to each neighbour of u.
#[tactic(auto, unfolding(crate::specs::Steps::tell), using(hop_laws::proofs::Words::loop_none, hop_laws::proofs::Words::loop_turn, hop_cells::proofs::Loops::loop_end))]
fn tell(s: &mut [u8], n: usize, u: usize, v: usize, d: u8)
    requires { Room n s.old × (u < n) × (v < n) }
    ensures { s.new ≡ step.tell n u v d s.old }
{
    for w in 0..n {
        tell_one(s, n, u, v, d, w);
    }
}

// What is found for v at u is stored. If the distance changed, it is told.
#[tactic(auto, unfolding(crate::specs::Steps::renew))]
fn renew(s: &mut [u8], n: usize, u: usize, v: usize, b: Way)
    requires { Room n s.old × (u < n) × (v < n) }
    ensures { s.new ≡ step.renew n u v b s.old }
{
    if u == v {
        return;
    }
    let old = Stored { bytes: s, n }.get2(Table::Distances, u, v);
    store(s, n, u, v, b);
    if usize::from(b.distance) != old {
        tell(s, n, u, v, b.distance);
    }
}

// Recompute of v at u.
#[tactic(auto, unfolding(crate::specs::Steps::recompute, crate::specs::Steps::renew))]
pub fn recompute(s: &mut [u8], n: usize, u: usize, v: usize)
    requires { Room n s.old × (u < n) × (v < n) }
    ensures { s.new ≡ step.recompute n u v s.old }
{
    if u == v {
        return;
    }
    let b = find_best(Stored { bytes: s, n }, u, v);
    renew(s, n, u, v, b);
}

// The view of v from w has become d. Only if it grew and was the one to go by are the others looked at.
#[tactic(auto, unfolding(crate::specs::Steps::settle))]
fn settle(s: &mut [u8], n: usize, u: usize, v: usize, w: usize, d: usize)
    requires { Room n s.old × (u < n) × (v < n) × (w < n) × (d < 256) }
    ensures { s.new ≡ step.settle n u v w d s.old }
{
    if u == v {
        return;
    }
    let state = Stored { bytes: s, n };
    let old = state.get2(Table::Distances, u, v);
    let x = state.get2(Table::Downstreams, u, v);
    let near = d + 1;
    if near < old {
        let b = Way {
            distance: near as u8,
            downstream: w as u8,
        };
        store(s, n, u, v, b);
        tell(s, n, u, v, near as u8);
    } else if near == old {
        if old < n && w < x {
            put2(s, n, Table::Downstreams, u, v, w as u8);
        }
    } else if x == w {
        recompute(s, n, u, v);
    }
}

// The view of v from w, in one node's stretch of the views.
fn hear_in(views: &mut [u8], n: usize, w: usize, v: usize, d: u8)
    requires { (n ≤ 40) × (w < n) × (v < n) × (n * n ≤ length views.old) }
    ensures { views.new ≡ set views.old (w * n + v) d }
{
    let at = pair(n, w, v);
    views[at] = d;
}

// u's view of v from w becomes d. Only u's stretch of the views is lent.
fn hear(s: &mut [u8], n: usize, u: usize, w: usize, v: usize, d: u8)
    requires { Room n s.old × (u < n) × (w < n) × (v < n) }
    ensures { s.new ≡ put3 n Views u w v d s.old }
{
    let from = start(n, Table::Views) + triple(n, u, 0, 0);
    let to = from + n * n;
    hear_in(&mut s[from..to], n, w, v, d);
}

// The entry at place p of the queue from w to u is heard, and u settles its destination.
#[tactic(auto, unfolding(crate::specs::Steps::hear_at))]
fn hear_at(s: &mut [u8], n: usize, w: usize, u: usize, p: usize)
    requires { Room n s.old × (w < n) × (u < n) × (p < n) }
    ensures { s.new ≡ step.hear_at n w u p s.old }
{
    let state = Stored { bytes: s, n };
    let v = state.get3(Table::Destinations, w, u, p);
    let d = state.get3(Table::Values, w, u, p);
    if v < n {
        hear(s, n, u, w, v, d as u8);
        settle(s, n, u, v, w, d);
    }
}

#[tactic(auto, unfolding(crate::specs::Steps::hear_first), using(hop_laws::proofs::Words::loop_none, hop_laws::proofs::Words::loop_turn, hop_cells::proofs::Loops::loop_end))]
fn hear_first(s: &mut [u8], n: usize, w: usize, u: usize, k: usize)
    requires { Room n s.old × (w < n) × (u < n) × (k ≤ n) }
    ensures { s.new ≡ step.hear_first n w u k s.old }
{
    for p in 0..k {
        hear_at(s, n, w, u, p);
    }
}

// k deliveries, or as many as wait: the entries are heard where they stand, and then leave together.
#[tactic(auto, unfolding(crate::specs::Steps::drain))]
pub fn drain(s: &mut [u8], n: usize, w: usize, u: usize, k: usize)
    requires { Room n s.old × (w < n) × (u < n) }
    ensures { s.new ≡ step.drain n w u k s.old }
{
    if k == 0 {
        return;
    }
    let m = held(Stored { bytes: s, n }, w, u);
    let j = k.min(m);
    hear_first(s, n, w, u, j);
    take_first(s, n, w, u, j, m - j);
}

// The head entry of the queue from w to u leaves, is heard, and u settles its destination.
#[tactic(auto, unfolding(crate::specs::Steps::deliver))]
pub fn deliver(s: &mut [u8], n: usize, w: usize, u: usize)
    requires { Room n s.old × (w < n) × (u < n) }
    ensures { s.new ≡ step.deliver n w u s.old }
{
    drain(s, n, w, u, 1);
}

// Both ends are up, and each offers all that it has to the other.
#[tactic(auto, unfolding(crate::specs::Steps::link_up))]
pub fn link_up(s: &mut [u8], n: usize, a: usize, b: usize)
    requires { Room n s.old × (a < n) × (b < n) }
    ensures { s.new ≡ step.link_up n a b s.old }
{
    put2(s, n, Table::Links, a, b, 1);
    put2(s, n, Table::Links, b, a, 1);
    offer_all(s, n, a, b);
    offer_all(s, n, b, a);
}

// a where d is less than c, and otherwise b: of views it is the smaller, of neighbours the one that gave it.
fn choose(d: u8, c: u8, a: u8, b: u8) -> u8
    ensures { result ≡ step.choose d c a b }
{
    if d < c { a } else { b }
}

// Neighbour w is looked at for v: `views` has the least view so far, and `from` the neighbour that gave it. Two arrays and not one of `Way`, so that the loop below goes over bytes of one kind.
fn nearer_at(s: Stored, u: usize, w: usize, v: usize, views: &mut [u8], from: &mut [u8])
    requires { (u < s.n) × (w < s.n) × (v < s.n) × (s.n ≤ length views.old) × (s.n ≤ length from.old) }
    ensures { (views.new ≡ step.lesser s.entry.n u w v s.entry.bytes.now views.old) × (from.new ≡ step.giver s.entry.n u w v s.entry.bytes.now views.old from.old) }
{
    let d = s.get(Table::Views, triple(s.n, u, w, v));
    let c = views[v];
    let x = from[v];
    views[v] = choose(d, c, d, c);
    from[v] = choose(d, c, w as u8, x);
}

// And for all destinations, if u's end of the link is up: along a row of views, in a loop that compiles to vector instructions.
fn nearer_row(s: Stored, u: usize, w: usize, views: &mut [u8], from: &mut [u8])
    requires { (u < s.n) × (w < s.n) × (s.n ≤ length views.old) × (s.n ≤ length from.old) }
    ensures { (v : ℕ) → v < s.entry.n → step.Looked s.entry.n u w s.entry.bytes.now views.old from.old views.new from.new v }
{
    if s.get2(Table::Links, u, w) != 1 {
        return;
    }
    for v in 0..s.n {
        nearer_at(s, u, w, v, views, from);
    }
}

// The best for every destination.
fn find_all(s: Stored, u: usize, views: &mut [u8], from: &mut [u8])
    requires { (u < s.n) × (s.n ≤ length views.old) × (s.n ≤ length from.old) × ((v : ℕ) → v < s.n → (get_or views.old v 0 + 1 ≡ s.n) × (get_or from.old v 0 ≡ 255)) }
    ensures { (v : ℕ) → v < s.entry.n → (step.at views.new from.new v ≡ step.best s.entry.n u v s.entry.bytes.now) × (get_or views.new v 0 < s.entry.n) }
{
    for w in 0..s.n {
        nearer_row(s, u, w, views, from);
    }
}

// u recomputes every destination, in ascending order. What is found for one does not depend on what is stored and told of another.
#[tactic(auto, unfolding(crate::specs::Steps::recompute_all), using(hop_laws::proofs::Words::loop_none, hop_cells::proofs::Loops::loop_end))]
fn recompute_all(s: &mut [u8], n: usize, u: usize)
    requires { Room n s.old × (u < n) }
    ensures { s.new ≡ step.recompute_all n u s.old }
{
    let mut views = [(n - 1) as u8; 40];
    let mut from = [255u8; 40];
    find_all(Stored { bytes: s, n }, u, &mut views, &mut from);
    for v in 0..n {
        let b = Way {
            distance: views[v] + 1,
            downstream: from[v],
        };
        renew(s, n, u, v, b);
    }
}

// a notices that its link to b is lost, the first half: a's end is down, a's views from b are n, and both queues are empty. b's end and b's views stay.
#[tactic(auto, unfolding(crate::specs::Steps::lose))]
fn lose(s: &mut [u8], n: usize, a: usize, b: usize)
    requires { Room n s.old × (a < n) × (b < n) }
    ensures { s.new ≡ step.lose n a b s.old }
{
    put2(s, n, Table::Links, a, b, 0);
    fill(s, n, Table::Views, a, b, n as u8);
    empty(s, n, a, b);
    empty(s, n, b, a);
}

// And a recomputes every destination.
#[tactic(auto, unfolding(crate::specs::Steps::notice))]
pub fn notice(s: &mut [u8], n: usize, a: usize, b: usize)
    requires { Room n s.old × (a < n) × (b < n) }
    ensures { s.new ≡ step.notice n a b s.old }
{
    lose(s, n, a, b);
    recompute_all(s, n, a);
}

// The notice of a, if it is missing.
#[tactic(auto, unfolding(crate::specs::Steps::missing))]
fn missing(s: &mut [u8], n: usize, a: usize, b: usize)
    requires { Room n s.old × (a < n) × (b < n) }
    ensures { s.new ≡ step.missing n a b s.old }
{
    let state = Stored { bytes: s, n };
    if state.get2(Table::Links, a, b) == 1 {
        notice(s, n, a, b);
    }
}

// Whatever notices are missing, the lower-numbered end first.
#[tactic(auto, unfolding(crate::specs::Steps::link_down))]
pub fn link_down(s: &mut [u8], n: usize, a: usize, b: usize)
    requires { Room n s.old × (a < n) × (b < n) }
    ensures { s.new ≡ step.link_down n a b s.old }
{
    if a < b {
        missing(s, n, a, b);
        missing(s, n, b, a);
    } else {
        missing(s, n, b, a);
        missing(s, n, a, b);
    }
}

// The bytes of a block.
fn cells(n: usize, t: Table) -> usize
    requires { n ≤ 40 }
    ensures { result ≡ cells n t }
{
    match t {
        Table::Views | Table::Destinations | Table::Values => cube(n),
        _ => square(n),
    }
}

// Every byte of a block becomes x.
#[tactic(auto, unfolding(crate::specs::Steps::fill_block, hop_cells::specs::Cells::fill_cells))]
fn fill_block(s: &mut [u8], n: usize, t: Table, x: u8)
    requires { Room n s.old }
    ensures { s.new ≡ step.fill_block n t x s.old }
{
    fill_cells(s, n, t, 0, cells(n, t), x);
}

// u has itself, at distance 0; and so has every node.
#[tactic(auto, unfolding(crate::specs::Steps::own_route))]
fn own_route(s: &mut [u8], n: usize, u: usize)
    requires { Room n s.old × (u < n) }
    ensures { s.new ≡ step.own_route n u s.old }
{
    let b = Way {
        distance: 0,
        downstream: u as u8,
    };
    store(s, n, u, u, b);
}

#[tactic(auto, unfolding(crate::specs::Steps::own_routes), using(hop_laws::proofs::Words::loop_none, hop_laws::proofs::Words::loop_turn, hop_cells::proofs::Loops::loop_end))]
fn own_routes(s: &mut [u8], n: usize)
    requires { Room n s.old }
    ensures { s.new ≡ step.own_routes n s.old }
{
    for u in 0..n {
        own_route(s, n, u);
    }
}

// A fresh state of n nodes. No byte is read.
#[tactic(auto, unfolding(hop_rule::specs::Stored::size, crate::specs::Steps::make, crate::specs::Steps::fill_squares, crate::specs::Steps::fill_cubes))]
pub fn make(s: &mut [u8], n: usize)
    requires { Room n s.old }
    ensures { s.new ≡ step.make n s.old }
{
    s[0] = n as u8;
    fill_block(s, n, Table::Links, 0);
    fill_block(s, n, Table::Distances, n as u8);
    fill_block(s, n, Table::Downstreams, 255);
    fill_block(s, n, Table::Lengths, 0);
    fill_block(s, n, Table::Views, n as u8);
    fill_block(s, n, Table::Destinations, 0);
    fill_block(s, n, Table::Values, 0);
    own_routes(s, n);
}
