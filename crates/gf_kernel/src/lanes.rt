//! Vectors of bytes, lane by lane.

ghost use Rattle.std.specs.Prelude.{◌≡◌, ℕ, ◌+◌, ◌*◌, ◌/◌, ◌%◌, ◌^◌, ◌<◌, ◌≤◌, length, slice_index};
ghost use Rattle.gf_field.specs.Product.{product};
ghost use Rattle.gf_kernel.specs.Lanes.{HasLanes};
ghost use Rattle.gf_kernel.specs.Rows.{kept};

use std::simd::prelude::*;

/// How many bytes of a row are taken at once.
pub const WIDTH: usize = 32;

/// `x^8` less the polynomial that reduces it.
const REDUCED: u8 = 0x1d;

/// The bytes of a row from `at` on.
#[inline(always)]
pub fn load(row: &[u8], at: usize) -> u8x32
    requires { at + WIDTH ≤ length row.now }
    ensures { HasLanes WIDTH result (λ k. slice_index row.now (at + k)) }
{
    u8x32::from_slice(&row[at..])
}

/// The same where they are kept, and else zeros.
#[inline(always)]
pub fn load_kept(row: &[u8], at: usize, keep: bool) -> u8x32
    requires { at + WIDTH ≤ length row.now }
    ensures { HasLanes WIDTH result (λ k. kept keep (slice_index row.now (at + k))) }
{
    if keep { load(row, at) } else { u8x32::splat(0) }
}

/// The product of 2 and each lane.
#[inline(always)]
pub fn double(lanes: u8x32) -> u8x32
    ensures { HasLanes WIDTH result (λ k. product 2 (slice_index lanes k)) }
{
    let shifted = lanes << u8x32::splat(1);
    let reduced = (lanes >> u8x32::splat(7)) * u8x32::splat(REDUCED);
    shifted ^ reduced
}

/// The lanes, twice.
#[inline(always)]
pub fn twice(lanes: u8x16) -> u8x32
    ensures { HasLanes WIDTH result (λ k. slice_index lanes (k % 16)) }
{
    lanes.swizzle([
        0, 1, 2, 3, 4, 5, 6, 7, 8, 9, 10, 11, 12, 13, 14, 15, 0, 1, 2, 3, 4, 5, 6, 7, 8, 9, 10, 11,
        12, 13, 14, 15,
    ])
}
