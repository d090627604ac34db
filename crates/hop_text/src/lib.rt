// The program's lines as text, written on a page: a lent buffer, from a place on. The place after a line is the one behind its text, also where the buffer ends before it.
#![tactic(auto)]

ghost use Rattle.std.specs.Prelude.{◌≡◌, [], ◌∷◌};
ghost use Rattle.hop_text.specs.Text.{digits, number, header, event_line, downstream_end, route_line};
ghost use Rattle.hop_text.specs.Writing.{Ends, Puts};

// A lent buffer, and the place of the next byte. Not by `write!`, whose contract tells the text only where it gives `Ok`, and a page tells it always.
#[derive(Drop)]
pub struct Page<'a> {
    pub out: &'a mut [u8],
    pub at: usize,
}

impl<'a> Page<'a> {
    // A page that begins where the buffer does.
    pub fn new(out: &'a mut [u8]) -> Page<'a>
        ensures same_buffer { result.out.ghost_name ≡ out.entry.ghost_name }
        ensures bytes { result.out.now ≡ out.old }
        ensures place { result.at ≡ 0 }
    {
        Page { out, at: 0 }
    }

    // One byte, if the buffer has that place.
    fn put_byte(&mut self, b: u8)
        requires { Ends (b ∷ []) self.old.at }
        ensures { Puts (b ∷ []) self.old self.new }
    {
        if self.at < self.out.len() {
            self.out[self.at] = b;
        }
        self.at += 1;
    }

    // A text as it stands.
    fn put_text(&mut self, text: &[u8])
        requires { Ends text.now self.old.at }
        ensures { Puts text.now self.old self.new }
    {
        for b in text {
            self.put_byte(*b);
        }
    }

    // The digits of a number.
    #[tactic(auto, using(crate::proofs::Digits::digits_decimal))]
    fn put_digits(&mut self, x: usize)
        requires { Ends (digits 20 x) self.old.at }
        ensures { Puts (digits 20 x) self.old self.new }
    {
        self.put_text(itoa::Buffer::new().format(x).as_bytes());
    }

    // A number and the byte that ends it.
    #[tactic(auto, unfolding(crate::specs::Text::number), using(crate::proofs::Writing::writing))]
    fn put_number(&mut self, x: usize, ends: u8)
        requires { Ends (number x ends) self.old.at }
        ensures { Puts (number x ends) self.old self.new }
    {
        self.put_digits(x);
        self.put_byte(ends);
    }

    #[tactic(auto, unfolding(crate::specs::Text::header))]
    pub fn put_header(&mut self)
        requires { Ends header self.old.at }
        ensures { Puts header self.old self.new }
    {
        self.put_text(b"event kind code queued\n");
    }

    #[tactic(auto, unfolding(crate::specs::Text::event_line), using(crate::proofs::Writing::writing))]
    pub fn put_event(&mut self, ordinal: usize, kind: usize, code: usize, queued: usize)
        requires { Ends (event_line ordinal kind code queued) self.old.at }
        ensures { Puts (event_line ordinal kind code queued) self.old self.new }
    {
        self.put_number(ordinal, b' ');
        self.put_number(kind, b' ');
        self.put_number(code, b' ');
        self.put_number(queued, b'\n');
    }

    #[tactic(auto, unfolding(crate::specs::Text::downstream_end))]
    fn put_downstream(&mut self, w: usize)
        requires { Ends (downstream_end w) self.old.at }
        ensures { Puts (downstream_end w) self.old self.new }
    {
        if w == 255 {
            return self.put_text(b"-\n");
        }
        self.put_number(w, b'\n');
    }

    #[tactic(auto, unfolding(crate::specs::Text::route_line), using(crate::proofs::Writing::writing))]
    pub fn put_route(&mut self, u: usize, v: usize, distance: usize, downstream: usize)
        requires { Ends (route_line u v distance downstream) self.old.at }
        ensures { Puts (route_line u v distance downstream) self.old self.new }
    {
        self.put_text(b"d ");
        self.put_number(u, b' ');
        self.put_number(v, b' ');
        self.put_number(distance, b' ');
        self.put_downstream(downstream);
    }
}
