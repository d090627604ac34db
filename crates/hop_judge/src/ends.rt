// The ends of links (02, R-5): each has a byte of its own. What is asked about the two of a pair, and about those of all pairs.

ghost use Rattle.std.specs.Prelude.{◌≡◌, not, ◌||◌, ◌<◌, ◌≤◌};
ghost use Rattle.hop_rule.specs.Words.{every};
ghost use Rattle.hop_rule.specs.Stored.{read_as};
ghost use Rattle.hop_rule.specs.Rule as rule;
ghost use Rattle.hop_rule.specs.Notice.{one_ended, ends_agree};
ghost use Rattle.hop_rule.specs.Worth as worth;
ghost use Rattle.hop_laws.specs.Lines.{tried_of, tried_below};

use hop_cells::Stored;
use hop_rule::Table;

// Both are up.
pub fn both_up(s: Stored, a: usize, b: usize) -> bool
    requires { (a < s.n) × (b < s.n) }
    ensures { result ≡ rule.sends (read_as s.entry.n s.entry.bytes.now) a b }
{
    if s.get2(Table::Links, a, b) != 1 {
        return false;
    }
    s.get2(Table::Links, b, a) == 1
}

// At least one of them is.
pub fn either_up(s: Stored, a: usize, b: usize) -> bool
    requires { (a < s.n) × (b < s.n) }
    ensures { result ≡ rule.up (read_as s.entry.n s.entry.bytes.now) a b || rule.up (read_as s.entry.n s.entry.bytes.now) b a }
{
    if s.get2(Table::Links, a, b) == 1 {
        return true;
    }
    s.get2(Table::Links, b, a) == 1
}

// Just one of them is.
pub fn differ(s: Stored, a: usize, b: usize) -> bool
    requires { (a < s.n) × (b < s.n) }
    ensures { result ≡ one_ended (read_as s.entry.n s.entry.bytes.now) a b }
{
    s.get2(Table::Links, a, b) != s.get2(Table::Links, b, a)
}

// No link of u to a lower-numbered node has just one end up,
fn node_agrees(s: Stored, u: usize) -> bool
    requires { u < s.n }
    ensures { result ≡ every u (λ w. not (one_ended (read_as s.entry.n s.entry.bytes.now) u w)) }
{
    (0..u).all(|w| !differ(s, u, w))
}

// and so no link of the state has.
pub fn agree(s: Stored) -> bool
    ensures { result ≡ ends_agree (read_as s.entry.n s.entry.bytes.now) }
{
    (0..s.n).all(|u| node_agrees(s, u))
}

// Does R-1 try the pair a, b?
fn pair_tried(s: Stored, a: usize, b: usize) -> bool
    requires { (a < s.n) × (b < s.n) }
    ensures { result ≡ worth.tried (read_as s.entry.n s.entry.bytes.now) a b }
{
    a < b && !differ(s, a, b)
}

// How many pairs of a it tries,
fn node_tried(s: Stored, a: usize) -> usize
    requires { a < s.n }
    ensures { (result ≡ tried_of (read_as s.entry.n s.entry.bytes.now) a s.entry.n) × (result ≤ 40) }
{
    (0..s.n).filter(|b| pair_tried(s, a, *b)).count()
}

// and of all nodes.
pub fn tried(s: Stored) -> usize
    ensures { (result ≡ tried_below (read_as s.entry.n s.entry.bytes.now) s.entry.n) × (result ≤ 1600) }
{
    (0..s.n).map(|a| node_tried(s, a)).sum()
}
