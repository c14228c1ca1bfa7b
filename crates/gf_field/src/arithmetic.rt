//! Product, inverse and quotient.

ghost use Rattle.std.specs.Prelude.{◌≡◌, ◌≢◌, ◌<◌};
ghost use Rattle.gf_field.specs.Product.{product};
ghost use Rattle.gf_field.specs.Power.{power_of_two};

use crate::tables::{LOGARITHM, ORDER, POWER};

/// The product of two bytes: `docs/FORMATS.md`, "The code".
pub fn mul(a: u8, b: u8) -> u8
    ensures { result ≡ product a b }
{
    if a == 0 || b == 0 {
        return 0;
    }
    power(logarithm(a) + logarithm(b))
}

/// The byte whose product with `a` is 1.
pub fn inv(a: u8) -> u8
    requires { a ≢ 0 }
    ensures { product a result ≡ 1 }
{
    power(ORDER - logarithm(a))
}

/// The byte whose product with `b` is `a`.
pub fn div(a: u8, b: u8) -> u8
    requires { b ≢ 0 }
    ensures { product result b ≡ a }
{
    if a == 0 {
        return 0;
    }
    power(logarithm(a) + ORDER - logarithm(b))
}

/// 2 to that power.
fn power(exponent: usize) -> u8
    requires { exponent < 510 }
    ensures { result ≡ power_of_two exponent }
{
    POWER[exponent]
}

/// The exponent below 255 of the power of 2 that `a` is.
fn logarithm(a: u8) -> usize
    requires { a ≢ 0 }
    ensures small { result < 255 }
    ensures value { power_of_two result ≡ a }
{
    LOGARITHM[a as usize] as usize
}
