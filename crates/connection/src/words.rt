// Sets of vertices, as bits in four words: vertex v is bit v % WORD_BITS of word v / WORD_BITS.
ghost use Rattle.std.specs.Prelude.{◌≡◌, ◌%◌, ◌^◌, ◌<◌};
ghost use Rattle.base.specs.Limits.{vertex_limit};
ghost use Rattle.connection.specs.Words.{word_bits, vertex_set, has, empty, added, removed, lowest, size};

use base::VERTEX_LIMIT;

// The bits of a word, and the words of a set.
const WORD_BITS: usize = 64;

const WORDS: usize = VERTEX_LIMIT / WORD_BITS;

// The bit of vertex v in its word.
fn bit_of(v: usize) -> u64
    ensures { result ≡ 2 ^ (v % word_bits) }
{
    1u64 << (v % WORD_BITS)
}

// How many bits are set in a set's words. It takes the array: the proof needs that each word is below 2 ^ 64, which
// Rattle tells of a parameter's items, but not of those of a field, so the sum did not prove in `count`.
fn bits_set(words: &[u64; WORDS]) -> usize
    ensures { result ≡ size (vertex_set words.now) }
{
    words.iter().map(|word| word.count_ones() as usize).sum()
}

#[derive(Clone, Copy)]
pub struct VertexSet {
    pub words: [u64; WORDS],
}

impl VertexSet {
    // The set of no vertex.
    #[tactic(auto, unfolding(crate::specs::Words::empty))]
    pub fn new() -> VertexSet
        ensures { result ≡ empty }
    {
        VertexSet { words: [0; WORDS] }
    }

    // Whether vertex v is in the set.
    #[tactic(auto, unfolding(crate::specs::Words::bit_at, crate::specs::Words::has))]
    pub fn holds(&self, v: usize) -> bool
        requires { v < vertex_limit }
        ensures { result ≡ has self.now v }
    {
        (self.words[v / WORD_BITS] >> (v % WORD_BITS)) % 2 == 1
    }

    // Puts vertex v into the set.
    #[tactic(auto, unfolding(crate::specs::Words::added))]
    pub fn add(&mut self, v: usize)
        requires { v < vertex_limit }
        ensures { self.new ≡ added self.old v }
    {
        self.words[v / WORD_BITS] |= bit_of(v);
    }

    // Takes vertex v, which is in the set, out of it.
    #[tactic(auto, unfolding(crate::specs::Words::removed))]
    pub fn remove(&mut self, v: usize)
        requires { v < vertex_limit }
        ensures { self.new ≡ removed self.old v }
    {
        self.words[v / WORD_BITS] ^= bit_of(v);
    }

    // The lowest vertex of the set, or VERTEX_LIMIT where it is empty: the promise has the definition `lowest`, which
    // says so.
    pub fn first(&self) -> usize
        ensures { result ≡ lowest self.now.words }
    {
        for (i, word) in self.words.iter().enumerate() {
            let zeros = word.trailing_zeros() as usize;
            if zeros < WORD_BITS {
                return WORD_BITS * i + zeros;
            }
        }
        VERTEX_LIMIT
    }

    // How many vertices are in the set.
    pub fn count(&self) -> usize
        ensures { result ≡ size self.now }
    {
        bits_set(&self.words)
    }
}
