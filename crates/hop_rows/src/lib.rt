// Rows of bytes: where they start, and plain tests on them.
#![tactic(auto)]

ghost use Rattle.std.specs.Prelude.{◌≡◌, ℕ, Bool, ◌&&◌, eqb, ◌+◌, ◌*◌, ◌-◌, ◌<◌, ◌≤◌, length, get_or};
ghost use Rattle.hop_rule.specs.Stored.{start};
ghost use Rattle.hop_rule.specs.Words.{every};
ghost use Rattle.hop_cells.specs.Cells.{cells};
ghost use Rattle.hop_rows.specs.Rows as rows;

use hop_cells::Stored;
use hop_rule::Table;

// k bytes of a block, from its byte i on. Not methods of `Stored`, which would have to stand in hop_cells: that crate knows no rows.
fn part(s: Stored, t: Table, i: usize, k: usize) -> &[u8]
    requires { (0 < k) × (i + k ≤ cells s.n t) }
    ensures { rows.IsRow s.entry.bytes.now (start s.entry.n t + i) k result.now }
{
    let at = hop_cells::start(s.n, t) + i;
    &s.bytes[at..at + k]
}

// Row a of a block of n². The three below differ in how a row is named, and have `part` in common.
pub fn row2(s: Stored, t: Table, a: usize) -> &[u8]
    requires { (a < s.n) × (cells s.n t ≡ s.n * s.n) }
    ensures { rows.IsRow s.entry.bytes.now (rows.row s.entry.n t a) s.entry.n result.now }
{
    part(s, t, a * s.n, s.n)
}

// The buffer from that row on: there any byte is read as an index.
pub fn from_row2(s: Stored, t: Table, a: usize) -> &[u8]
    requires { (a < s.n) × (cells s.n t ≡ s.n * s.n) }
    ensures { rows.IsRow s.entry.bytes.now (rows.row s.entry.n t a) (length s.entry.bytes.now - rows.row s.entry.n t a) result.now }
{
    let at = hop_cells::start(s.n, t) + a * s.n;
    &s.bytes[at..]
}

// The row of a and b in a block of n³.
pub fn row3(s: Stored, t: Table, a: usize, b: usize) -> &[u8]
    requires { (a < s.n) × (b < s.n) × (cells s.n t ≡ s.n * s.n * s.n) }
    ensures { rows.IsRow s.entry.bytes.now (rows.row s.entry.n t (a * s.entry.n + b)) s.entry.n result.now }
{
    part(s, t, hop_cells::pair(s.n, a, b) * s.n, s.n)
}

// All n rows of a there.
pub fn block(s: Stored, t: Table, a: usize) -> &[u8]
    requires { (a < s.n) × (cells s.n t ≡ s.n * s.n * s.n) }
    ensures { rows.IsRow s.entry.bytes.now (rows.row s.entry.n t (a * s.entry.n)) (s.entry.n * s.entry.n) result.now }
{
    part(s, t, a * s.n * s.n, s.n * s.n)
}

// Does each byte pass? The loop goes to the end of the row: that form is compiled to vector instructions, and one with a way out is not.
fn each<F: Fn(u8) -> bool>(row: &[u8], test: F) -> bool
    requires { F.IsAlwaysCallable test }
    ensures { (p : ℕ → Bool) → ((x : ℕ) (r : Bool) → F.post test x r → r ≡ p x) → result ≡ every (length row.now) (λ i. p (rows.byte row.now 0 i)) }
{
    let mut ok = true;
    for x in row {
        ok = ok & test(*x);
    }
    ok
}

// Does each byte of b pass together with that of a at its place? By the place and not over `zip`: that form leaves up to 31 bytes of a row to be tested one by one, and a queue of 31 entries took 1.4 of its instructions to check.
pub fn each_pair<F: Fn(u8, u8) -> bool>(a: &[u8], b: &[u8], test: F) -> bool
    requires { F.IsAlwaysCallable test × (length b.now ≤ length a.now) }
    ensures { (p : ℕ → ℕ → Bool) → ((x y : ℕ) (r : Bool) → F.post test x y r → r ≡ p x y) → result ≡ every (length b.now) (λ i. p (rows.byte a.now 0 i) (rows.byte b.now 0 i)) }
{
    let mut ok = true;
    for (i, y) in b.iter().enumerate() {
        ok = ok & test(a[i], *y);
    }
    ok
}

// Each byte is x.
pub fn all_are(row: &[u8], x: u8) -> bool
    ensures { result ≡ rows.all_are row.now 0 (length row.now) x }
{
    each(row, |b| b == x)
}

// Each byte of two rows is x. In one loop: rows of changing lengths take longer in two, since each end of a loop has to be foreseen.
pub fn both_are(a: &[u8], b: &[u8], x: u8) -> bool
    requires { length b.now ≡ length a.now }
    ensures { result ≡ every (length a.now) (λ i. eqb (rows.byte a.now 0 i) x && eqb (rows.byte b.now 0 i) x) }
{
    each_pair(a, b, |y, z| (y == x) & (z == x))
}

// Each is below x.
pub fn all_below(row: &[u8], x: u8) -> bool
    ensures { result ≡ rows.all_below row.now 0 (length row.now) x }
{
    each(row, |b| b < x)
}
