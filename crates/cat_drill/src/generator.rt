//! The numbers of a drill.

ghost use Rattle.std.specs.Prelude.{◌≡◌};
ghost use Rattle.cat_drill.specs.Steps.{drawn, next_number, removes};

/// The number after a number.
pub(crate) fn next_number(number: u64) -> u64
    ensures { result ≡ next_number number }
{
    number
        .wrapping_mul(6_364_136_223_846_793_005)
        .wrapping_add(1_442_695_040_888_963_407)
}

/// What a step draws from its number.
pub(crate) fn drawn(number: u64) -> u64
    ensures { result ≡ drawn number }
{
    number >> 33
}

/// Whether a key that is there is removed.
pub(crate) fn removes(drawn: u64) -> bool
    ensures { result ≡ removes drawn }
{
    (drawn / 1000) % 4 == 0
}
