//! What is run.

ghost use Rattle.std.specs.Prelude.{◌≡◌, ◌+◌, ◌≤◌, ◌↔◌, IsSome, IfSome};
ghost use Rattle.code_bench.specs.declared.case.TheConstants.{MOST};

use rs_code::Code;

/// The most bytes of a fragment.
pub const MOST: usize = 65_536;

/// The kernel alone, all parity of given source fragments, the whole coding of a payload with its copy, or the source
/// fragment 0 from the others and the first of parity.
#[derive(Drop)]
pub enum Case {
    Kernel,
    Parity(Shape),
    Coded(Shape),
    Rebuilt(Shape),
}

/// A code, and how many bytes each fragment has.
#[derive(Clone, Copy)]
pub struct Shape {
    pub code: Code,
    pub fragment: usize,
    ghost some: { 1 ≤ fragment },
    ghost few: { fragment ≤ MOST },
}

/// The shape of these numbers, or `None` where there is no such code or no such fragment.
pub fn shape_of(k: u8, p: u8, fragment: usize) -> Option<Shape>
    ensures fits { IsSome result ↔ ((1 ≤ k) × (1 ≤ p) × (k + p ≤ 20) × (1 ≤ fragment) × (fragment ≤ MOST)) }
    ensures code { IfSome result (λ shape. (shape.code.k ≡ k) × (shape.code.p ≡ p) × (shape.fragment ≡ fragment)) }
{
    if k == 0 || p == 0 || k >= 20 || p > 20 - k || fragment == 0 || fragment > MOST {
        return None;
    }
    Some(Shape {
        code: Code::new(k, p),
        fragment,
    })
}
