//! Rows of at least as many bytes as are taken at once, by the products of a factor with half bytes.
//!
//! The last bytes of a row are made of what it was before the steps, and written after them: where its length is no multiple
//! of the width, some of them are in the last step too.

ghost use Rattle.std.specs.Prelude.{◌≡◌, ℕ, ◌+◌, ◌*◌, ◌<◌, ◌≤◌, length, slice_index, EachIndex};
ghost use Rattle.gf_kernel.specs.Lanes.{HasLanes, looked_up};
ghost use Rattle.gf_kernel.specs.Rows.{made_byte};

use crate::halves::Halves;
use crate::lanes::{WIDTH, load, load_kept};
use std::simd::prelude::*;

/// Makes each byte of `out` the sum of what is kept of it and the multiple of the byte of `src` at the same place.
#[inline(always)]
pub fn make_long_row(out: &mut [u8], src: &[u8], halves: Halves, keep: bool)
    requires same { length out.old ≡ length src.now }
    requires long { WIDTH ≤ length src.now }
    ensures { EachIndex out.new
        (λ i. slice_index out.new i ≡ made_byte keep (looked_up halves.lower halves.upper) out.old src.now i) }
{
    let last = src.len() - WIDTH;
    let end = made_lanes(out, src, last, halves, keep);
    for step in 0..src.len() / WIDTH {
        let at = step * WIDTH;
        let made = made_lanes(out, src, at, halves, keep);
        made.copy_to_slice(&mut out[at..]);
    }
    end.copy_to_slice(&mut out[last..]);
}

/// The same for two rows at once.
#[inline(always)]
pub fn make_long_rows(
    first: &mut [u8],
    second: &mut [u8],
    src: &[u8],
    one: Halves,
    other: Halves,
    keep: bool,
)
    requires first { length first.old ≡ length src.now }
    requires second { length second.old ≡ length src.now }
    requires long { WIDTH ≤ length src.now }
    ensures first { EachIndex first.new
        (λ i. slice_index first.new i ≡ made_byte keep (looked_up one.lower one.upper) first.old src.now i) }
    ensures second { EachIndex second.new
        (λ i. slice_index second.new i ≡ made_byte keep (looked_up other.lower other.upper) second.old src.now i) }
{
    let last = src.len() - WIDTH;
    let first_end = made_lanes(first, src, last, one, keep);
    let second_end = made_lanes(second, src, last, other, keep);
    for step in 0..src.len() / WIDTH {
        let at = step * WIDTH;
        let made = made_lanes(first, src, at, one, keep);
        let made_second = made_lanes(second, src, at, other, keep);
        made.copy_to_slice(&mut first[at..]);
        made_second.copy_to_slice(&mut second[at..]);
    }
    first_end.copy_to_slice(&mut first[last..]);
    second_end.copy_to_slice(&mut second[last..]);
}

/// The bytes that take the place of those of `row` from `at` on.
#[inline(always)]
fn made_lanes(row: &[u8], src: &[u8], at: usize, halves: Halves, keep: bool) -> u8x32
    requires row { at + WIDTH ≤ length row.now }
    requires src { at + WIDTH ≤ length src.now }
    ensures { HasLanes WIDTH result
        (λ k. made_byte keep (looked_up halves.lower halves.upper) row.now src.now (at + k)) }
{
    load_kept(row, at, keep) ^ halves.times(load(src, at))
}
