ghost use Rattle.std.specs.Prelude.{◌≡◌, ℕ, ◌<◌, slice_index};
ghost use Rattle.gf_field.specs.Product.{product};
ghost use Rattle.gf_kernel.specs.Lanes.{HasLanes, looked_up};

use crate::lanes::{WIDTH, double, twice};
use std::simd::prelude::*;

/// The bytes of which one half is 0: the 16 lower halves, and then the 16 upper ones.
const HALF_BYTES: [u8; WIDTH] = [
    0x00, 0x01, 0x02, 0x03, 0x04, 0x05, 0x06, 0x07, 0x08, 0x09, 0x0a, 0x0b, 0x0c, 0x0d, 0x0e, 0x0f,
    0x00, 0x10, 0x20, 0x30, 0x40, 0x50, 0x60, 0x70, 0x80, 0x90, 0xa0, 0xb0, 0xc0, 0xd0, 0xe0, 0xf0,
];

/// The products of one byte with all half bytes. Two of them make its product with any byte.
#[derive(Clone, Copy)]
pub struct Halves {
    lower: u8x16,
    upper: u8x16,
}

impl Halves {
    /// The products of `c`.
    #[inline(always)]
    pub fn of(c: u8) -> Halves
        ensures { (b : ℕ) → b < 256 → looked_up result.lower result.upper b ≡ product c b }
    {
        let products = products_of(c);
        Halves {
            lower: products.extract::<0, 16>(),
            upper: products.extract::<16, 16>(),
        }
    }

    /// The sum of the two products at the halves of each lane.
    #[inline(always)]
    pub fn times(self, lanes: u8x32) -> u8x32
        ensures { HasLanes WIDTH result (λ k. looked_up self.lower self.upper (slice_index lanes k)) }
    {
        let lower = twice(self.lower).swizzle_dyn_within::<16>(lanes & u8x32::splat(15));
        let upper = twice(self.upper).swizzle_dyn_within::<16>(lanes >> u8x32::splat(4));
        lower ^ upper
    }
}

/// The products of `c` with the half bytes: the sum, over the bits of `c` that are one, of these bytes doubled as often as
/// the place of the bit says.
#[inline(always)]
fn products_of(c: u8) -> u8x32
    ensures { HasLanes WIDTH result (λ k. product c (slice_index HALF_BYTES k)) }
{
    let mut doubled = u8x32::from_array(HALF_BYTES);
    let mut sum = u8x32::splat(0);
    for place in 0..8u8 {
        if (c >> place) & 1 == 1 {
            sum ^= doubled;
        }
        doubled = double(doubled);
    }
    sum
}
