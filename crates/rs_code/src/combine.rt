//! Sums of fragments, each times its factor. The rows of `f` bytes stand one after another, in the order of their factors.

ghost use Rattle.std.specs.Prelude.{◌≡◌, ◌*◌, ◌≤◌, length, slice_index, EachIndex};
ghost use Rattle.rs_code.specs.Factor.{sum_of, weighted_byte};

use gf_kernel::{mul_add, mul_add_both, mul_into, mul_into_both};

/// Writes the sum over `out`. The first row overwrites, so that nothing needs to be zero before.
pub fn combine(factors: &[u8], rows: &[u8], f: usize, out: &mut [u8])
    requires some { 1 ≤ length factors.now }
    requires size { length rows.now ≡ length factors.now * f }
    requires room { length out.old ≡ f }
    ensures { EachIndex out.new (λ c. slice_index out.new c
        ≡ sum_of (weighted_byte factors.now rows.now f c) (length factors.now)) }
{
    mul_into(out, &rows[..f], factors[0]);
    for i in 1..factors.len() {
        let from = i * f;
        mul_add(out, &rows[from..from + f], factors[i]);
    }
}

/// Writes the sum by `factors` over `first`, and that by `others` over `second`. It goes over the rows once.
pub fn combine_both(
    factors: &[u8],
    others: &[u8],
    rows: &[u8],
    f: usize,
    first: &mut [u8],
    second: &mut [u8],
)
    requires some { 1 ≤ length factors.now }
    requires others { length others.now ≡ length factors.now }
    requires size { length rows.now ≡ length factors.now * f }
    requires first { length first.old ≡ f }
    requires second { length second.old ≡ f }
    ensures first { EachIndex first.new (λ c. slice_index first.new c
        ≡ sum_of (weighted_byte factors.now rows.now f c) (length factors.now)) }
    ensures second { EachIndex second.new (λ c. slice_index second.new c
        ≡ sum_of (weighted_byte others.now rows.now f c) (length others.now)) }
{
    mul_into_both(first, second, &rows[..f], factors[0], others[0]);
    for i in 1..factors.len() {
        let from = i * f;
        let row = &rows[from..from + f];
        mul_add_both(first, second, row, factors[i], others[i]);
    }
}
