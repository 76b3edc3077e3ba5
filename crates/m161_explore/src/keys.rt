//! Lists of words, each once, by number: one behind the other in memory, found by a hash, and compared
//! in full.
ghost use Rattle.std.specs.Prelude.{◌≡◌, ℕ, ◌+◌, ◌-◌, ◌*◌, ◌<◌, ◌++◌, ◌^◌, List, [], ◌∷◌, length, slice_index_or, IfOk, MatchOption, OnErr, OnOk};
ghost use Rattle.m161_explore.specs.helpers.Keys.{AreChained, AreCuts, parts};

use super::hash::bucket_of;
use std::alloc::{AllocError, Global};
use std::marker::Model;

/// The lists.
#[derive(Drop)]
pub struct Keys {
    words: Vec<u32>,
    /// Where each list begins, and where the last one ends.
    cuts: Vec<usize>,
    /// For each bucket, one more than the number of its last list, or 0.
    heads: Vec<u32>,
    /// For each list, one more than the number of the list before it in its bucket, or 0.
    before: Vec<u32>,
}

impl Model for Keys {
    ghost use Rattle.std.specs.Prelude.{ℕ, List, length};
    ghost use Rattle.m161_explore.specs.helpers.Keys.{AreChained, AreCuts, parts};

    ghost Value = { List (List ℕ) };

    ghost view = { λ k. parts k.cuts.items k.words.items };

    ghost invariant = { λ k. record {
      cuts : AreCuts k.cuts.items (length k.words.items);
      chained : AreChained k.heads.items k.before.items (parts k.cuts.items k.words.items);
    } };
}

/// The list with a number.
fn part<'a>(words: &'a [u32], cuts: &[usize], index: usize) -> &'a [u32]
    requires cut { AreCuts cuts.now (length words.now) }
    requires within { index + 1 < length cuts.now }
    ensures { result.now ≡ slice_index_or (parts cuts.now words.now) index [] }
{
    let start = cuts[index];
    let end = cuts[index + 1];
    &words[start..end]
}

/// The number of a list, if it is there: a walk along the chain of its bucket.
fn find_in(
    words: &[u32],
    cuts: &[usize],
    heads: &[u32],
    before: &[u32],
    wanted: &[u32],
) -> Option<usize>
    requires cut { AreCuts cuts.now (length words.now) }
    requires chained { AreChained heads.now before.now (parts cuts.now words.now) }
    ensures { MatchOption result
        ((j : ℕ) → j < length (parts cuts.now words.now) → slice_index_or (parts cuts.now words.now) j [] ≡ wanted.now → ⊥)
        (λ i. (i < length (parts cuts.now words.now)) × (slice_index_or (parts cuts.now words.now) i [] ≡ wanted.now)) }
{
    let first = bucket_of(wanted, heads.len());
    let mut next = heads[first];
    while next != 0 {
        let index = next as usize - 1;
        if part(words, cuts, index) == wanted {
            return Some(index);
        }
        next = before[index];
    }
    None
}

/// So many buckets without lists.
fn empty_heads(alloc: Global, size: usize) -> Result<Vec<u32>, AllocError>
    ensures size { IfOk result (λ heads. length heads.items ≡ size) }
    ensures zeros { IfOk result (λ heads. (b : ℕ) → b < length heads.items → slice_index_or heads.items b 0 ≡ 0) }
{
    vec![in alloc; 0; size]
}

/// Chains all lists anew.
fn relink(words: &[u32], cuts: &[usize], heads: &mut [u32], before: &mut [u32])
    requires cut { AreCuts cuts.now (length words.now) }
    requires some { 0 < length heads.old }
    requires zeros { (b : ℕ) → b < length heads.old → slice_index_or heads.old b 0 ≡ 0 }
    requires sizes { length before.old ≡ length (parts cuts.now words.now) }
    requires few { length before.old < 2 ^ 32 }
    ensures { AreChained heads.new before.new (parts cuts.now words.now) }
{
    for index in 0..before.len() {
        let place = bucket_of(part(words, cuts, index), heads.len());
        before[index] = heads[place];
        heads[place] = index as u32 + 1;
    }
}

impl Keys {
    /// No lists.
    pub fn new(alloc: Global) -> Result<Keys, AllocError>
        ensures { IfOk result (λ keys. keys ≡ []) }
    {
        let mut cuts = Vec::new(alloc);
        cuts.push(0)?;
        let heads = empty_heads(alloc, 1024)?;
        Ok(Keys {
            words: Vec::new(alloc),
            cuts,
            heads,
            before: Vec::new(alloc),
        })
    }

    pub fn len(&self) -> usize
        ensures { result ≡ length self.now }
    {
        self.cuts.len() - 1
    }

    pub fn get(&self, index: usize) -> &[u32]
        requires { index < length self.now }
        ensures { result.now ≡ slice_index_or self.now index [] }
    {
        part(&self.words, &self.cuts, index)
    }

    /// The number of a list, if it is there.
    pub fn find(&self, words: &[u32]) -> Option<usize>
        ensures { MatchOption result ((j : ℕ) → j < length self.now → slice_index_or self.now j [] ≡ words.now → ⊥)
            (λ i. (i < length self.now) × (slice_index_or self.now i [] ≡ words.now)) }
    {
        find_in(&self.words, &self.cuts, &self.heads, &self.before, words)
    }

    /// Makes twice as many buckets, if there is memory.
    fn grow(&mut self, alloc: Global) -> Result<(), AllocError>
        requires { length self.old < 2 ^ 32 }
        ensures { self.new ≡ self.old }
    {
        let mut heads = empty_heads(alloc, self.heads.len().saturating_mul(2))?;
        relink(&self.words, &self.cuts, &mut heads, &mut self.before);
        self.heads = heads;
        Ok(())
    }

    fn add(&mut self, words: &[u32]) -> Result<(), AllocError>
        requires { length self.old + 1 < 2 ^ 32 }
        ensures ok { OnOk result (self.new ≡ self.old ++ words.now ∷ []) }
        ensures err { OnErr result (self.new ≡ self.old) }
    {
        let number = self.before.len() as u32 + 1;
        let place = bucket_of(words, self.heads.len());
        let last = self.heads[place];
        self.cuts.reserve(1)?;
        self.before.reserve(1)?;
        self.words.extend_from_slice(words)?;
        let end = self.words.len();
        self.cuts.push_reserved(end);
        self.before.push_reserved(last);
        self.heads[place] = number;
        Ok(())
    }

    /// Puts a list behind the others. Where memory is refused, nothing is changed.
    pub fn push(&mut self, alloc: Global, words: &[u32]) -> Result<(), AllocError>
        requires { length self.old + 1 < 2 ^ 32 }
        ensures ok { OnOk result (self.new ≡ self.old ++ words.now ∷ []) }
        ensures err { OnErr result (self.new ≡ self.old) }
    {
        if self.before.len() >= self.heads.len() / 2 {
            self.grow(alloc)?;
        }
        self.add(words)
    }
}
