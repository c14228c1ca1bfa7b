//! The rounds of each case. Each gives a checksum of what came out at last. A byte of what goes in changes before each round,
//! so that none of them is for nothing.

ghost use Rattle.std.specs.Prelude.{◌≡◌};

use crate::case::{MOST, Shape};
use crate::rows::{checksum, filled_row};
use gf_kernel::mul_add;
use rs_code::{Code, Coded};
use std::alloc::{AllocError, Global};

/// The seed of the bytes that go in.
const SEED: u32 = 40_503;

/// The indexes of the fragments that are left where the first is lost.
const LEFT: [u8; 19] = [
    1, 2, 3, 4, 5, 6, 7, 8, 9, 10, 11, 12, 13, 14, 15, 16, 17, 18, 19,
];

/// Adds a row to another one that many times, each time with another factor.
pub(crate) fn kernel_rounds(alloc: Global, rounds: u32) -> Result<u64, AllocError> {
    let src = filled_row(alloc, MOST, SEED)?;
    let mut out = filled_row(alloc, MOST, 60_493)?;
    for round in 0..rounds {
        mul_add(out.as_mut_slice(), src.as_slice(), factor_of(round));
    }
    Ok(checksum(0, out.as_slice()))
}

/// Changes a byte of the row, another one in each round.
fn change_byte(row: &mut [u8], round: u32) {
    let len = row.len();
    if len > 0 {
        let place = round as usize % len;
        row[place] = row[place].wrapping_add(1);
    }
}

/// The factor of a round: each byte but 0 in turn.
fn factor_of(round: u32) -> u8 {
    (round % 255 + 1) as u8
}

/// Makes all parity of k fragments that many times.
pub(crate) fn parity_rounds(alloc: Global, shape: Shape, rounds: u32) -> Result<u64, AllocError> {
    let f = shape.fragment;
    let mut fragments = filled_row(alloc, shape.code.k as usize * f, SEED)?;
    let mut parity = Vec::from_elem(alloc, 0, shape.code.p as usize * f)?;
    for round in 0..rounds {
        change_byte(fragments.as_mut_slice(), round);
        shape
            .code
            .parities_into(fragments.as_slice(), f, parity.as_mut_slice());
    }
    Ok(checksum(0, parity.as_slice()))
}

/// Codes a payload of k fragments that many times.
pub(crate) fn coded_rounds(alloc: Global, shape: Shape, rounds: u32) -> Result<u64, AllocError> {
    let code = shape.code;
    let mut payload = filled_row(alloc, code.k as usize * shape.fragment, SEED)?;
    let mut sum = 0;
    for round in 0..rounds {
        change_byte(payload.as_mut_slice(), round);
        let coded = Coded::of(alloc, &code, payload.as_slice()).map_err(|_| AllocError)?;
        if round + 1 == rounds {
            sum = parity_checksum(&code, &coded);
        }
    }
    Ok(sum)
}

/// The checksum of all parity.
fn parity_checksum(code: &Code, coded: &Coded) -> u64
    requires { (coded.now.k ≡ code.now.k) × (coded.now.p ≡ code.now.p) }
{
    let mut sum = 0;
    for j in 0..code.p {
        sum = checksum(sum, coded.fragment(code.k + j));
    }
    sum
}

/// Makes source fragment 0 that many times, from the others and the first of parity, which are noise too.
pub(crate) fn rebuilt_rounds(alloc: Global, shape: Shape, rounds: u32) -> Result<u64, AllocError> {
    let f = shape.fragment;
    let k = shape.code.k as usize;
    let mut fragments = filled_row(alloc, k * f, SEED)?;
    let mut out = Vec::from_elem(alloc, 0, f)?;
    for round in 0..rounds {
        change_byte(fragments.as_mut_slice(), round);
        shape
            .code
            .fragment_into(&LEFT[..k], fragments.as_slice(), f, 0, out.as_mut_slice());
    }
    Ok(checksum(0, out.as_slice()))
}
