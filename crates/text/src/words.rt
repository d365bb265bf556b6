// Single bytes and words at a place.
ghost use Rattle.std.specs.Prelude.{◌≡◌, ◌∷◌, [], ◌+◌, min, ltb, set, get_or, drop};
ghost use Rattle.std.proofs.lemmas.List.Edits.{sets};
ghost use Rattle.text.specs.Words.{begins};

// Whether the place k after `at` is below `len`, also where their sum is no usize.
pub fn is_below(at: usize, k: usize, len: usize) -> bool
    ensures { result ≡ ltb (at + k) len }
{
    at < len && k < len - at
}

// The place n further on, at most the end.
pub fn after(at: usize, n: usize, len: usize) -> usize
    ensures { result ≡ min (at + n) len }
{
    at.saturating_add(n).min(len)
}

// The byte k places after `at`; 0 past the end.
pub fn byte_at(s: &[u8], at: usize, k: usize) -> u8
    ensures { result ≡ get_or s.now (at + k) 0 }
{
    if is_below(at, k, s.len()) {
        return s[at + k];
    }
    0
}

// Stores a byte k places after `at`.
pub fn put_byte(buf: &mut [u8], at: usize, k: usize, b: u8)
    ensures { buf.new ≡ set buf.old (at + k) b }
{
    if is_below(at, k, buf.len()) {
        buf[at + k] = b;
    }
}

// Stores a word from `at` on.
pub fn put_word(buf: &mut [u8], at: usize, word: &[u8])
    ensures { buf.new ≡ sets buf.old at word.now }
{
    for (i, b) in word.iter().enumerate() {
        put_byte(buf, at, i, *b);
    }
}

// Whether a word stands at `at`.
#[tactic(auto, using(crate::proofs::Matching::begins_at))]
pub fn has_word(s: &[u8], at: usize, word: &[u8]) -> bool
    ensures { result ≡ begins word.now (drop at s.now) }
{
    s[at.min(s.len())..].starts_with(word)
}
