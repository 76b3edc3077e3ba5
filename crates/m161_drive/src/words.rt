//! Random numbers.

ghost use Rattle.std.specs.Prelude.{◌≡◌, ◌<◌, ◌≤◌};
ghost use Rattle.m161_drive.specs.Words.{after_word, below, seeded};

use rand_pcg::Pcg32;
use rand_pcg::rand_core::utils::NextWord;

/// The stream of PCG's published words.
const STREAM: u64 = 54;

/// The generator of a seed.
#[tactic(auto, unfolding(crate::specs::Words::seeded))]
pub(crate) fn seeded(seed: u64) -> Pcg32
    ensures { result ≡ seeded seed }
{
    Pcg32::new(seed, STREAM)
}

/// The next word as a number below `m`.
pub(crate) fn below(generator: &mut Pcg32, m: u32) -> u32
    ensures number { result ≡ below m generator.old }
    ensures after { generator.new ≡ after_word generator.old }
    ensures within { 1 ≤ m → result < m }
{
    let word = generator.next_word();
    ((u64::from(word) * u64::from(m)) >> 32) as u32
}
