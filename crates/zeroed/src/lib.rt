// Bytes of zeros, as many as the place asks for: the memories of a fresh card, and the buffers of the programs.
#![tactic(auto)]

ghost use Rattle.std.specs.Prelude.{◌≡◌, length};
ghost use Rattle.zeroed.specs.Bridge.{zeros};

#[tactic(auto, unfolding(crate::specs::Bridge::zeros))]
pub fn bytes<const N: usize>() -> [u8; N]
    ensures value { result ≡ zeros N }
    ensures len { length result ≡ N }
{
    [0; N]
}
