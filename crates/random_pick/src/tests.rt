ghost use Rattle.std.specs.Prelude.{◌≡◌, ℕ};
ghost use Rattle.heap_model.specs.State.{Setting};
ghost use Rattle.heap_model.specs.Search.{draw_of};

use super::*;
use rand_pcg::Pcg32;

/// Whoever owns the draws of a caller knows them by their numbers.
fn first_two(seed: u64, stream: u64) -> (Draw, Draw)
    ensures first { (s : Setting) (c : ℕ) → s.seed ≡ seed → s.stream c ≡ stream → result.0.value ≡ draw_of s c 0 }
    ensures second { (s : Setting) (c : ℕ) → s.seed ≡ seed → s.stream c ≡ stream → result.1.value ≡ draw_of s c 1 }
{
    let mut draws = Draws::new(Pcg32::new(seed, stream));
    let first = draws.draw();
    let second = draws.draw();
    (first, second)
}

/// The first words of PCG32's reference code, of seed 42 and stream 54.
#[test]
fn draws_are_the_generators_words(rt: HostRuntime) {
    let mut draws = Draws::new(Pcg32::new(42, 54));
    for value in [0xa15c02b7, 0x7b47f409, 0xba1d3330, 0x83d2f293] {
        assert_eq!(rt; draws.draw(), Draw { value });
    }
    assert_eq!(rt; first_two(42, 54).1.value, 0x7b47f409);
}

#[test]
fn picks_are_the_first_free_bits(rt: HostRuntime) {
    let rows = [
        (11, 15, 2, Some(2)),
        (14, 15, 1, Some(0)),
        (15, 15, 0, None),
        (0, u64::MAX, 63, Some(63)),
        (1 << 63, u64::MAX, 63, Some(0)),
        (0, 0, 5, None),
        (0, 1, 1, Some(0)),
    ];
    for (word, valid, start, bit) in rows {
        assert_eq!(rt;
            pick(word, valid, start),
            bit,
            "word {word}, valid {valid}, start {start}"
        );
    }
}
