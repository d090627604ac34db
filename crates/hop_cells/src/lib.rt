// One byte of a stored state by name: where it stands, reading it, writing it; and a row of them written.
#![tactic(auto)]

ghost use Rattle.std.specs.Prelude.{◌≡◌, ◌+◌, ◌*◌, ◌<◌, ◌≤◌, length};
ghost use Rattle.hop_rule.specs.Route as question;
ghost use Rattle.hop_rule.specs.Stored as stored;
ghost use Rattle.hop_cells.specs.Cells as cell;
ghost use Rattle.hop_cells.specs.Cells.{Room, cells, Reads};

use hop_rule::Table;

// The node count that the bytes claim: their first.
#[tactic(auto, unfolding(hop_rule::specs::Stored::nodes))]
pub fn nodes(s: &[u8]) -> usize
    requires { 0 < length s.now }
    ensures { result ≡ stored.nodes s.now }
{
    usize::from(s[0])
}

// The bytes of a block of n², and of one of n³: the two shapes that blocks have.
pub fn square(n: usize) -> usize
    requires { n ≤ 40 }
    ensures { (result ≡ n * n) × (result ≤ 1600) }
{
    n * n
}

pub fn cube(n: usize) -> usize
    requires { n ≤ 40 }
    ensures { (result ≡ n * n * n) × (result ≤ 64000) }
{
    n * n * n
}

// The bytes of a state of n nodes.
#[tactic(auto, unfolding(hop_rule::specs::Stored::size))]
pub fn size(n: usize) -> usize
    requires { n ≤ 40 }
    ensures { result ≡ stored.size n }
{
    1 + 4 * square(n) + 3 * cube(n)
}

// Where a block starts.
#[tactic(auto, unfolding(hop_rule::specs::Stored::start))]
pub fn start(n: usize, t: Table) -> usize
    requires { n ≤ 40 }
    ensures { result ≡ stored.start n t }
{
    let q = square(n);
    let c = cube(n);
    match t {
        Table::Links => 1,
        Table::Distances => 1 + q,
        Table::Downstreams => 1 + 2 * q,
        Table::Views => 1 + 3 * q,
        Table::Lengths => 1 + 3 * q + c,
        Table::Destinations => 1 + 4 * q + c,
        Table::Values => 1 + 4 * q + 2 * c,
    }
}

// The index of a row and a column, and of two rows and a column.
// `pair` and `triple`, `get2` and `get3`, `put2` and `put3` stay apart: one function over a trait for the place would need an impl, two ghost members and a law for each of the two tuples, where each of these is one line.
pub fn pair(n: usize, a: usize, b: usize) -> usize
    requires { (n ≤ 40) × (a < n) × (b < n) }
    ensures { (result ≡ a * n + b) × (result < n * n) }
{
    a * n + b
}

pub fn triple(n: usize, a: usize, b: usize, c: usize) -> usize
    requires { (n ≤ 40) × (a < n) × (b < n) × (c < n) }
    ensures { (result ≡ (a * n + b) * n + c) × (result < n * n * n) }
{
    pair(n, a, b) * n + c
}

// Where byte i of a block stands: inside the state.
fn at(n: usize, t: Table, i: usize) -> usize
    requires { (n ≤ 40) × (i < cells n t) }
    ensures { (result ≡ stored.start n t + i) × (result < stored.size n) }
{
    start(n, t) + i
}

// The bytes of a state and its node count, which they have room for: what is read. By value it is as fast as the bytes and the count by themselves.
// What writes takes bytes and count apart: a struct of the two behind a `&mut` made a pass take 1.4 to 1.9 times as long, past the 0.4 of a careful Rust's time that it may take.
// Nodes and blocks are asked for in each clause (`a < self.n`, `cells self.n t`): a type for either would have to carry n.
#[derive(Clone, Copy)]
pub struct Stored<'a> {
    pub bytes: &'a [u8],
    pub n: usize,
    pub ghost room: { Room n bytes.now },
}

// What a node has for a destination, hops and direction read at once (02, R-4). 255 is no downstream, as in the stored form and in C.
#[derive(Clone, Copy)]
pub struct Way {
    pub distance: u8,
    pub downstream: u8,
}

impl<'a> Stored<'a> {
    // Byte i of a block.
    #[tactic(auto, unfolding(crate::specs::Cells::get))]
    pub fn get(self, t: Table, i: usize) -> u8
        requires { i < cells self.n t }
        ensures { result ≡ cell.get self.entry.n t i self.entry.bytes.now }
    {
        self.bytes[at(self.n, t, i)]
    }

    // The byte at a row and a column of a block of n², and of two rows and a column of a block of n³.
    pub fn get2(self, t: Table, a: usize, b: usize) -> usize
        requires { (a < self.n) × (b < self.n) × (cells self.n t ≡ self.n * self.n) }
        ensures { (result ≡ cell.get2 self.entry.n t a b self.entry.bytes.now) × (result < 256) }
    {
        usize::from(self.get(t, pair(self.n, a, b)))
    }

    pub fn get3(self, t: Table, a: usize, b: usize, c: usize) -> usize
        requires { (a < self.n) × (b < self.n) × (c < self.n) × (cells self.n t ≡ self.n * self.n * self.n) }
        ensures { (result ≡ cell.get3 self.entry.n t a b c self.entry.bytes.now) × (result < 256) }
    {
        usize::from(self.get(t, triple(self.n, a, b, c)))
    }

    #[tactic(auto, unfolding(hop_rule::specs::Stored::read_as, hop_rule::specs::Stored::flat, crate::specs::Cells::get))]
    pub fn route(self, u: usize, v: usize) -> Way
        requires { (u < self.n) × (v < self.n) }
        ensures { Reads result (question.route (stored.read_as self.entry.n self.entry.bytes.now) u v) }
    {
        Way {
            distance: self.get(Table::Distances, pair(self.n, u, v)),
            downstream: self.get(Table::Downstreams, pair(self.n, u, v)),
        }
    }
}

// Byte i of a block is written,
#[tactic(auto, unfolding(crate::specs::Cells::put))]
pub fn put(s: &mut [u8], n: usize, t: Table, i: usize, x: u8)
    requires { Room n s.old × (i < cells n t) }
    ensures { s.new ≡ cell.put n t i x s.old }
{
    s[at(n, t, i)] = x;
}

// and the byte at a row and a column of a block of n², and of two rows and a column of a block of n³.
pub fn put2(s: &mut [u8], n: usize, t: Table, a: usize, b: usize, x: u8)
    requires { Room n s.old × (a < n) × (b < n) × (cells n t ≡ n * n) }
    ensures { s.new ≡ cell.put2 n t a b x s.old }
{
    put(s, n, t, pair(n, a, b), x);
}

pub fn put3(s: &mut [u8], n: usize, t: Table, a: usize, b: usize, c: usize, x: u8)
    requires { Room n s.old × (a < n) × (b < n) × (c < n) × (cells n t ≡ n * n * n) }
    ensures { s.new ≡ cell.put3 n t a b c x s.old }
{
    put(s, n, t, triple(n, a, b, c), x);
}

// k bytes of a block become x, those from byte i on.
pub fn fill_cells(s: &mut [u8], n: usize, t: Table, i: usize, k: usize, x: u8)
    requires { Room n s.old × (i + k ≤ cells n t) }
    ensures { s.new ≡ cell.fill_cells n t i k x s.old }
{
    let from = start(n, t) + i;
    s[from..from + k].fill(x);
}

// Every place of a row of a block of n³ becomes x.
pub fn fill(s: &mut [u8], n: usize, t: Table, a: usize, b: usize, x: u8)
    requires { Room n s.old × (a < n) × (b < n) × (cells n t ≡ n * n * n) }
    ensures { s.new ≡ cell.fill n t a b x s.old }
{
    fill_cells(s, n, t, triple(n, a, b, 0), n, x);
}
