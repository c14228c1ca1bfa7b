//! The laws of the field, and that a polynomial is known by its values. These functions do nothing: their contracts are
//! the theorems.

ghost use Rattle.std.specs.Prelude.{bit_xor};
ghost use Rattle.gf_field.specs.Product.{product};
ghost use Rattle.gf_field.specs.Field.{IsFieldOfBytes};
ghost use Rattle.gf_field.specs.Polynomial.{AtMostOnePolynomial};

/// Bytes are a field, with `^` as the sum.
pub fn field_laws()
    ensures { IsFieldOfBytes bit_xor product }
{}

/// At most one polynomial of degree below k has given values at k distinct points.
pub fn one_polynomial()
    ensures { AtMostOnePolynomial }
{}
