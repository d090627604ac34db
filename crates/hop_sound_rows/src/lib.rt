// Tests of rows of bytes that only the soundness check makes. A loop goes straight over a row, as in hop_rows.
#![tactic(auto)]

ghost use Rattle.std.specs.Prelude.{◌≡◌, true, ℕ, ◌+◌, ◌-◌, ◌<◌, ◌≤◌, eqb, length, get_or};
ghost use Rattle.hop_rows.specs.Rows.{byte, all_below};
ghost use Rattle.hop_sound_rows.specs.SoundRows as check;

// Each byte is below the next one.
pub fn rising(row: &[u8]) -> bool
    requires { 0 < length row.now }
    ensures { result ≡ check.rising row.now 0 (length row.now - 1) }
{
    hop_rows::each_pair(row, &row[1..], |x, y| x < y)
}

// A row counts up: 0, 1, and so on. A place below 40 is a byte, so that `as` loses nothing, and `try_from` would add a way out.
pub fn counting(row: &[u8]) -> bool
    requires { length row.now ≤ 40 }
    ensures { result ≡ check.counting row.now 0 (length row.now) }
{
    let mut ok = true;
    for (i, x) in row.iter().enumerate() {
        ok = ok & (*x == i as u8);
    }
    ok
}

// The least view from neighbour w that allows distance d by way of h. No test here waits for another, so that the loops below stay straight.
#[tactic(auto, unfolding(crate::specs::SoundRows::least_view))]
fn least_view(n: u8, w: u8, d: u8, h: u8) -> u8
    ensures { result ≡ check.least_view n w d h }
{
    let e = d.saturating_sub(1);
    if (w < h) & (d != n) { d } else { e }
}

// The views of one node from another, and the routes of the first, by destination.
#[derive(Clone, Copy)]
pub struct Rows<'a> {
    pub views: &'a [u8],
    pub distances: &'a [u8],
    pub downstreams: &'a [u8],
    pub ghost distances_fit: { length distances.now ≡ length views.now },
    pub ghost downstreams_fit: { length downstreams.now ≡ length views.now },
}

impl<'a> Rows<'a> {
    // 0 where view v from w is at least what the route allows, and else some bits. Put together by `|` they keep a loop straight, where tests would not.
    #[tactic(auto, using(crate::proofs::SoundTests::short_none))]
    fn short_at(&self, n: u8, w: u8, v: usize) -> u8
        requires { v < length self.now.views.now }
        ensures { eqb result 0 ≡ check.row_allows n w self.now.views.now self.now.distances.now self.now.downstreams.now v }
    {
        let x = self.views[v];
        x ^ x.max(least_view(n, w, self.distances[v], self.downstreams[v]))
    }

    // Each view from w is at least that: one by one,
    fn each_allows(&self, n: u8, w: u8) -> bool
        requires { length self.now.views.now ≡ n }
        ensures { result ≡ check.rows_allow n w self.now.views.now self.now.distances.now self.now.downstreams.now }
    {
        // Three rows go side by side, and a chain of two `zip` reads no plainer than their place v.
        let mut ok = true;
        for (v, x) in self.views.iter().enumerate() {
            ok = ok & (least_view(n, w, self.distances[v], self.downstreams[v]) <= *x);
        }
        ok
    }

    // or K to 3 K of them as three windows. Where these overlap a view is looked at twice, but none is left over to be looked at alone.
    fn windows_allow<const K: usize>(&self, n: u8, w: u8, middle: usize, last: usize) -> bool
        requires { (length self.now.views.now ≡ n) × (last + K ≡ n) × (middle ≤ K) × (middle ≤ last) × (last ≤ middle + K) }
        ensures { result ≡ check.rows_allow n w self.now.views.now self.now.distances.now self.now.downstreams.now }
    {
        // Nine bytes of three rows make a turn, so that their place v is counted.
        let mut faults = 0u8;
        for v in 0..K {
            faults = faults
                | (self.short_at(n, w, v)
                    | self.short_at(n, w, middle + v)
                    | self.short_at(n, w, last + v));
        }
        faults == 0
    }

    // The way that n asks for.
    pub fn allow(&self, n: u8, w: u8) -> bool
        requires { (n ≤ 40) × (length self.now.views.now ≡ n) }
        ensures { result ≡ check.rows_allow n w self.now.views.now self.now.distances.now self.now.downstreams.now }
    {
        let k = usize::from(n);
        if k < 8 {
            return self.each_allows(n, w);
        }
        if k < 16 {
            return self.windows_allow::<8>(n, w, 0, k - 8);
        }
        self.windows_allow::<16>(n, w, (k - 16).min(16), k - 16)
    }
}

// A row of views as it is once the entries that wait are delivered.
fn told(views: &[u8], destinations: &[u8], values: &[u8]) -> [u8; 40]
    requires { (length views.now ≤ 40) × (length values.now ≡ length destinations.now) × (all_below destinations.now 0 (length destinations.now) (length views.now) ≡ true) }
    ensures { check.Told (byte views.now 0) (byte destinations.now 0) (byte values.now 0) (length views.now) (length destinations.now) result }
{
    let mut heard = [0u8; 40];
    heard[..views.len()].copy_from_slice(views);
    for (v, x) in destinations.iter().zip(values) {
        heard[usize::from(*v)] = *x;
    }
    heard
}

// It is the row of distances.
pub fn all_told(views: &[u8], distances: &[u8], destinations: &[u8], values: &[u8]) -> bool
    requires { (length views.now ≤ 40) × (length distances.now ≡ length views.now) × (length values.now ≡ length destinations.now) × (all_below destinations.now 0 (length destinations.now) (length views.now) ≡ true) }
    ensures { result ≡ check.rows_told views.now distances.now destinations.now values.now }
{
    let heard = told(views, destinations, values);
    &heard[..views.len()] == distances
}
