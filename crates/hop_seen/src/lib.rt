// A set of numbers below 64 in one number, a bit for each; and by it whether the destinations of a queue differ, each of them read once.
#![tactic(auto)]

ghost use Rattle.std.specs.Prelude.{◌≡◌, true, ◌<◌, ◌≤◌, length};
ghost use Rattle.hop_rows.specs.Rows.{all_below};
ghost use Rattle.hop_seen.specs.Seen as seen;

// Is v in the set?
pub fn has(set: u64, v: u8) -> bool
    requires { v < 64 }
    ensures { result ≡ seen.has set v }
{
    (set >> v) & 1 == 1
}

// The set with v added.
pub fn added(set: u64, v: u8) -> u64
    requires { v < 64 }
    ensures { result ≡ seen.added set v }
{
    set | (1u64 << v)
}

// No two bytes of a row are equal: none is in the set of those before it. The loop has no way out, as in hop_rows.
pub fn differing(row: &[u8]) -> bool
    requires { all_below row.now 0 (length row.now) 64 ≡ true }
    ensures { result ≡ seen.differing row.now 0 (length row.now) }
{
    let mut before = 0u64;
    let mut ok = true;
    for v in row {
        ok = ok & !has(before, *v);
        before = added(before, *v);
    }
    ok
}

// A full queue, walked once: its n destinations are below n and differ exactly if they are below 64 and their set is that of all numbers below n.
// The length is below 64, so that `as u8` loses nothing. A number of 64 or more stands in the set as another one, so all bits that were seen are kept too; what is read as its distance is somewhere in the buffer.
pub fn full(distances: &[u8], destinations: &[u8], values: &[u8]) -> bool
    requires { (256 ≤ length distances.now) × (length destinations.now < 64) × (length values.now ≡ length destinations.now) }
    ensures { result ≡ seen.full_rows distances.now destinations.now values.now }
{
    let mut set = 0u64;
    let mut bits = 0u8;
    let mut faults = 0u8;
    for (v, x) in destinations.iter().zip(values) {
        set = added(set, *v & 63);
        bits = bits | *v;
        faults = faults | (*x ^ distances[usize::from(*v)]);
    }
    (bits < 64) & (set == (1u64 << destinations.len() as u8) - 1) & (faults == 0)
}
