//! What is done to whole rows. No call here takes memory.

ghost use Rattle.std.specs.Prelude.{◌≡◌, ◌<◌, length, slice_index, bit_xor, EachIndex};
ghost use Rattle.gf_field.specs.Product.{product};
ghost use Rattle.gf_kernel.specs.Rows.{made_byte};

use crate::halves::Halves;
use crate::lanes::WIDTH;
use crate::long_rows::{make_long_row, make_long_rows};
use gf_field::mul;

/// Adds `c` times each byte of `src` to the byte of `out` at the same place: `docs/FORMATS.md`, "The code". Takes no
/// memory.
pub fn mul_add(out: &mut [u8], src: &[u8], c: u8)
    requires { length out.old ≡ length src.now }
    ensures { EachIndex out.new
        (λ i. slice_index out.new i ≡ bit_xor (slice_index out.old i) (product c (slice_index src.now i))) }
{
    make_row(out, src, c, true);
}

/// Writes `c` times each byte of `src` over the byte of `out` at the same place. Takes no memory.
pub fn mul_into(out: &mut [u8], src: &[u8], c: u8)
    requires { length out.old ≡ length src.now }
    ensures { EachIndex out.new (λ i. slice_index out.new i ≡ product c (slice_index src.now i)) }
{
    make_row(out, src, c, false);
}

/// Adds `c` times `src` to `first`, and `d` times `src` to `second`, as [`mul_add`] does. Takes no memory.
pub fn mul_add_both(first: &mut [u8], second: &mut [u8], src: &[u8], c: u8, d: u8)
    requires first { length first.old ≡ length src.now }
    requires second { length second.old ≡ length src.now }
    ensures first { EachIndex first.new
        (λ i. slice_index first.new i ≡ bit_xor (slice_index first.old i) (product c (slice_index src.now i))) }
    ensures second { EachIndex second.new
        (λ i. slice_index second.new i ≡ bit_xor (slice_index second.old i) (product d (slice_index src.now i))) }
{
    make_rows(first, second, src, c, d, true);
}

/// Writes `c` times `src` over `first`, and `d` times `src` over `second`, as [`mul_into`] does. Takes no memory.
pub fn mul_into_both(first: &mut [u8], second: &mut [u8], src: &[u8], c: u8, d: u8)
    requires first { length first.old ≡ length src.now }
    requires second { length second.old ≡ length src.now }
    ensures first { EachIndex first.new (λ i. slice_index first.new i ≡ product c (slice_index src.now i)) }
    ensures second { EachIndex second.new (λ i. slice_index second.new i ≡ product d (slice_index src.now i)) }
{
    make_rows(first, second, src, c, d, false);
}

/// Makes each byte of `out` the sum of what is kept of it and `c` times the byte of `src` at the same place.
#[inline(always)]
fn make_row(out: &mut [u8], src: &[u8], c: u8, keep: bool)
    requires { length out.old ≡ length src.now }
    ensures { EachIndex out.new (λ i. slice_index out.new i ≡ made_byte keep (product c) out.old src.now i) }
{
    if src.len() < WIDTH {
        make_short_row(out, src, c, keep);
    } else {
        make_long_row(out, src, Halves::of(c), keep);
    }
}

/// The same for two rows at once.
#[inline(always)]
fn make_rows(first: &mut [u8], second: &mut [u8], src: &[u8], c: u8, d: u8, keep: bool)
    requires first { length first.old ≡ length src.now }
    requires second { length second.old ≡ length src.now }
    ensures first { EachIndex first.new
        (λ i. slice_index first.new i ≡ made_byte keep (product c) first.old src.now i) }
    ensures second { EachIndex second.new
        (λ i. slice_index second.new i ≡ made_byte keep (product d) second.old src.now i) }
{
    if src.len() < WIDTH {
        make_short_row(first, src, c, keep);
        make_short_row(second, src, d, keep);
    } else {
        make_long_rows(first, second, src, Halves::of(c), Halves::of(d), keep);
    }
}

/// The same for one row, byte by byte.
fn make_short_row(out: &mut [u8], src: &[u8], c: u8, keep: bool)
    requires { length out.old ≡ length src.now }
    ensures { EachIndex out.new (λ i. slice_index out.new i ≡ made_byte keep (product c) out.old src.now i) }
{
    for (i, byte) in src.iter().enumerate() {
        let old = if keep { out[i] } else { 0 };
        out[i] = old ^ mul(c, *byte);
    }
}
