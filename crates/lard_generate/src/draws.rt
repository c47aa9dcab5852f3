//! Draws, and numbers as they are used.

ghost use Rattle.std.specs.Prelude.{◌≡◌, ◌<◌, ◌≤◌};
ghost use Rattle.lard_generate.specs.Draws.{behind, draw, drawn_word};

use lard_base::ConnId;
use rand_core::utils::NextWord;
use rand_pcg::Lcg64Xsh32;

/// The next word.
#[tactic(auto, unfolding(crate::specs::Draws::drawn_word, crate::specs::Draws::behind))]
pub fn word(draws: &mut Lcg64Xsh32) -> u32
    ensures word { result ≡ drawn_word draws.old }
    ensures behind { draws.new ≡ behind draws.old }
{
    draws.next_word()
}

/// The remainder of the next word by `m`, which is above 0.
pub fn draw(draws: &mut Lcg64Xsh32, m: u32) -> u32
    requires { 0 < m }
    ensures draw { result ≡ draw m draws.old }
    ensures below { result < m }
    ensures behind { draws.new ≡ behind draws.old }
{
    word(draws) % m
}

/// The client with this number, 1 to 16,384.
pub fn client(number: u32) -> ConnId
    requires { (1 ≤ number) × (number ≤ ConnId.MAX) }
    ensures { result ≡ number }
{
    match ConnId::new(number) {
        Some(c) => c,
        None => unreachable!(),
    }
}
