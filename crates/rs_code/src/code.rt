ghost use Rattle.std.specs.Prelude.{◌≡◌, ◌+◌, ◌*◌, ◌<◌, ◌≤◌, ℕ, [], length, slice_index_or};
ghost use Rattle.rs_code.specs.Factor.{AreFactors};
ghost use Rattle.rs_code.specs.Fragments.{AreIndexes, GivesFragment, HasCode, piece, sources};

use crate::combine::{combine, combine_both};
use crate::factor::{MOST, factors_of};

/// The indexes of fragments.
const INDEXES: [u8; MOST] = [
    0, 1, 2, 3, 4, 5, 6, 7, 8, 9, 10, 11, 12, 13, 14, 15, 16, 17, 18, 19,
];

/// How many fragments a payload is made into: k that are the payload, of index 0 to k - 1, and p of parity, of index k
/// to k + p - 1. Any k of them give every other: `docs/FORMATS.md`, "The code".
#[derive(Clone, Copy, Debug)]
pub struct Code {
    /// How many source fragments there are.
    pub k: u8,
    /// How many fragments of parity there are.
    pub p: u8,
    /// The factors of the source fragments in each of parity, in order of index.
    factors: [[u8; MOST]; MOST],
    ghost has_source: { 1 ≤ k },
    ghost has_parity: { 1 ≤ p },
    ghost few: { k + p ≤ 20 },
    ghost parity_factors: { (j : ℕ) → j < p → AreFactors (sources k) (k + j) (slice_index_or factors j []) },
}

impl Code {
    /// The code with so many source fragments and so many of parity.
    pub fn new(k: u8, p: u8) -> Code
        requires source { 1 ≤ k }
        requires parity { 1 ≤ p }
        requires few { k + p ≤ 20 }
        ensures k { result.k ≡ k }
        ensures p { result.p ≡ p }
    {
        let have = &INDEXES[..k as usize];
        let mut factors = [[0; MOST]; MOST];
        for j in 0..p {
            factors[j as usize] = factors_of(have, k + j);
        }
        Code { k, p, factors }
    }

    /// How many fragments there are.
    pub fn n(&self) -> u8
        ensures { result ≡ self.now.k + self.now.p }
    {
        self.k + self.p
    }

    /// The factors of the source fragments in parity fragment `j`.
    fn parity_factors(&self, j: u8) -> &[u8]
        requires { j < self.now.p }
        ensures all { length result.now ≡ self.now.k }
        ensures factors { AreFactors (sources self.now.k) (self.now.k + j) result.now }
    {
        let factors = &self.factors[j as usize];
        &factors[..self.k as usize]
    }

    /// Writes parity fragment `j`, whose index is `k + j`. `shards` are the k source fragments of `f` bytes each, in order
    /// of index. Takes no memory.
    pub fn parity_into(&self, j: u8, shards: &[u8], f: usize, out: &mut [u8])
        requires wanted { j < self.now.p }
        requires size { length shards.now ≡ self.now.k * f }
        requires room { length out.old ≡ f }
        ensures fragment { let code = self.now in
            GivesFragment code.k (code.k + code.p) f (sources code.k) shards.now (code.k + j) out.new }
        ensures code { let code = self.now in HasCode code.k (code.k + code.p) f (sources code.k) shards.now }
    {
        combine(self.parity_factors(j), shards, f, out);
    }

    /// Writes all parity fragments, one after another in order of index: two at a time, and the last of an odd number by
    /// itself. `shards` are the k source fragments of `f` bytes each, in order of index. Takes no memory.
    pub fn parities_into(&self, shards: &[u8], f: usize, out: &mut [u8])
        requires size { length shards.now ≡ self.now.k * f }
        requires room { length out.old ≡ self.now.p * f }
        ensures fragments { let code = self.now in (j : ℕ) → j < code.p
            → GivesFragment code.k (code.k + code.p) f (sources code.k) shards.now (code.k + j) (piece out.new f j) }
        ensures code { let code = self.now in HasCode code.k (code.k + code.p) f (sources code.k) shards.now }
    {
        for pair in 0..self.p / 2 {
            let j = 2 * pair;
            let from = j as usize * f;
            self.two_parities_into(j, shards, f, &mut out[from..from + 2 * f]);
        }
        if self.p % 2 == 1 {
            let j = self.p - 1;
            let from = j as usize * f;
            self.parity_into(j, shards, f, &mut out[from..from + f]);
        }
    }

    /// Writes parity fragments `j` and `j + 1`, one after the other.
    fn two_parities_into(&self, j: u8, shards: &[u8], f: usize, out: &mut [u8])
        requires wanted { j + 1 < self.now.p }
        requires size { length shards.now ≡ self.now.k * f }
        requires room { length out.old ≡ 2 * f }
        ensures { let code = self.now in (i : ℕ) → i < 2
            → GivesFragment code.k (code.k + code.p) f (sources code.k) shards.now (code.k + (j + i))
            (piece out.new f i) }
    {
        let (first, second) = out.split_at_mut(f);
        let factors = self.parity_factors(j);
        let others = self.parity_factors(j + 1);
        combine_both(factors, others, shards, f, first, second);
    }

    /// Writes the fragment of index `want`, source or parity. `fragments` are those of the k indexes in `have`, in its order,
    /// of `f` bytes each. Takes no memory.
    pub fn fragment_into(&self, have: &[u8], fragments: &[u8], f: usize, want: u8, out: &mut [u8])
        requires have { AreIndexes self.now.k (self.now.k + self.now.p) have.now }
        requires size { length fragments.now ≡ self.now.k * f }
        requires wanted { want < self.now.k + self.now.p }
        requires room { length out.old ≡ f }
        ensures fragment { let code = self.now in
            GivesFragment code.k (code.k + code.p) f have.now fragments.now want out.new }
        ensures code { let code = self.now in HasCode code.k (code.k + code.p) f have.now fragments.now }
    {
        if let Some(place) = have.iter().position(|own| *own == want) {
            let from = place * f;
            out.copy_from_slice(&fragments[from..from + f]);
        } else {
            let factors = factors_of(have, want);
            combine(&factors[..have.len()], fragments, f, out);
        }
    }
}
