//! A draw.

ghost use Rattle.std.specs.Prelude.{◌≡◌};
ghost use Rattle.nt_draws.specs.Draws.{drawn};

/// The number that a draw makes of another.
#[tactic(auto, unfolding(crate::specs::Draws::drawn))]
pub(crate) fn draw(number: u32) -> u32
    ensures { result ≡ drawn number }
{
    (u64::from(number) * 48271 % 2147483647) as u32
}
