//! Numbers that look random, for tests: the same from the same beginning, on every machine.
#![tactic(auto)]

ghost use Rattle.std.specs.Prelude.{◌≡◌, ◌+◌, ◌*◌, ◌%◌, ◌^◌, ◌<◌};

/// The number after this one: a linear congruence on 64 bits (Knuth's MMIX).
pub fn next(number: u64) -> u64
    ensures { result ≡ (number * 6364136223846793005 % 2 ^ 64 + 1442695040888963407) % 2 ^ 64 }
{
    number
        .wrapping_mul(6_364_136_223_846_793_005)
        .wrapping_add(1_442_695_040_888_963_407)
}

/// A number below a bound, from the bits of a number from a place on.
pub fn below(number: u64, place: u32, bound: u8) -> u8
    requires place { place < 64 }
    requires bound { 0 < bound }
    ensures { result < bound }
{
    ((number >> place) % u64::from(bound)) as u8
}
