//! The buckets of lists of words. What a bucket is changes no answer.
ghost use Rattle.std.specs.Prelude.{◌≡◌, ◌<◌, ◌/◌, ◌^◌, slice_index_or};
ghost use Rattle.m161_explore.specs.helpers.Keys.{bucket, hash_in, mixed, pair};

fn mix(hash: u64, number: u64) -> u64
    ensures { result ≡ mixed hash number }
{
    hash.wrapping_add(number)
        .wrapping_mul(0x9e37_79b9_7f4a_7c15)
}

fn pair(low: u32, high: u32) -> u64
    ensures { result ≡ pair low high }
{
    u64::from(high) * 0x1_0000_0000 + u64::from(low)
}

/// The word at a place, or 0 where none is.
fn word_or_zero(words: &[u32], at: usize) -> u32
    ensures { result ≡ slice_index_or words.now at 0 }
{
    if at < words.len() { words[at] } else { 0 }
}

fn hash_of(words: &[u32]) -> u64
    ensures { result ≡ hash_in words.now }
{
    let pairs = words.len() / 2;
    let mut hash = 0x243f_6a88_85a3_08d3;
    for at in 0..pairs {
        hash = mix(hash, pair(words[2 * at], words[2 * at + 1]));
    }
    mix(hash, u64::from(word_or_zero(words, 2 * pairs)))
}

/// The bucket of a list, of so many buckets.
#[tactic(auto, unfolding(crate::specs::helpers::Keys::bucket))]
pub fn bucket_of(words: &[u32], size: usize) -> usize
    requires { 0 < size }
    ensures is { result ≡ bucket size words.now }
    ensures within { result < size }
{
    (hash_of(words) >> 32) as usize % size
}
