// The soundness check: 01's sound, decided on the bytes of a stored state. Rows are judged as wholes; the ways out stand between them.
#![tactic(auto)]

mod nodes;

ghost use Rattle.std.specs.Prelude.{◌≡◌};
ghost use Rattle.hop_rule.specs.Sound.{is_sound_as};

use hop_cells::Stored;

// Is the state of n nodes that the bytes hold sound? The first byte is not looked at.
pub fn is_sound(s: Stored) -> bool
    ensures { result ≡ is_sound_as s.entry.n s.entry.bytes.now }
{
    (0..s.n).all(|u| nodes::node_sound(s, u))
}
