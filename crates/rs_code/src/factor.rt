//! What one fragment counts for in another.

ghost use Rattle.std.specs.Prelude.{◌≡◌, ◌≤◌, length};
ghost use Rattle.gf_field.specs.Product.{product};
ghost use Rattle.rs_code.specs.Factor.{AreFactors, differences};

use gf_field::{div, mul};

/// The most fragments that a payload is made into.
pub const MOST: usize = 20;

/// The factors of the fragments of all these indexes in the one of index `want`, in the order of the indexes.
pub fn factors_of(points: &[u8], want: u8) -> [u8; MOST]
    requires { length points.now ≤ MOST }
    ensures all { length result ≡ MOST }
    ensures factors { AreFactors points.now want result }
{
    let mut factors = [0; MOST];
    for (i, own) in points.iter().enumerate() {
        factors[i] = factor(points, *own, want);
    }
    factors
}

/// The factor of the fragment of index `own` in the one of index `want`, where `points` are the indexes that are had: the
/// product of `(want ^ m) / (own ^ m)` over the others.
fn factor(points: &[u8], own: u8, want: u8) -> u8
    ensures { product result (differences points.now own own) ≡ differences points.now own want }
{
    let mut above = 1;
    let mut below = 1;
    for m in points {
        if *m != own {
            above = mul(above, want ^ *m);
            below = mul(below, own ^ *m);
        }
    }
    div(above, below)
}
