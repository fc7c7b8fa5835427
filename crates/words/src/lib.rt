// Event sets as words of 64 bits, event 1 in the top bit of word 0: single events, how many there are, and
// the way from the bytes of a lent set and back.
#![tactic(auto)]

ghost use Rattle.std.specs.Prelude.{ℕ, ◌*◌, ◌-◌, ◌<◌, ◌≤◌, ◌≡◌, false, ◌||◌, eqb, length};
ghost use Rattle.model.specs.Lists.{filter, from, has_bit};
ghost use Rattle.laws.specs.BitRow.{row_bit};

// Whether event e is in the set: its bit, shifted down to the lowest place.
pub fn has(words: &[u64], e: usize) -> bool
    requires { (1 ≤ e) × (e ≤ 64 * length words.now) }
    ensures { result ≡ row_bit 64 words.now (e - 1) }
{
    (words[(e - 1) / 64] >> (63 - (e - 1) % 64)) & 1 == 1
}

// Puts event e into the set: sets its bit.
pub fn put(words: &mut [u64], e: usize)
    requires { (1 ≤ e) × (e ≤ 64 * length words.old) }
    ensures { (i : ℕ) → row_bit 64 words.new i
        ≡ (row_bit 64 words.old i || eqb (e - 1) i) }
{
    words[(e - 1) / 64] |= 1 << (63 - (e - 1) % 64);
}

// The first eight bytes as a word, the first at its top; with fewer, the places after them are clear.
fn word_of(bytes: &[u8]) -> u64
    ensures { (i : ℕ) → i < 64 → has_bit result (63 - i) ≡ row_bit 8 bytes.now i }
{
    let mut padded = [0; 8];
    for (k, byte) in padded.iter_mut().enumerate() {
        *byte = if k < bytes.len() { bytes[k] } else { 0 };
    }
    u64::from_be_bytes(padded)
}

// The bytes of a lent set as words: clears these, and makes one of each eight bytes, and of what is left.
pub fn pack(set: &[u8], words: &mut [u64])
    requires { length set.now ≤ 8 * length words.old }
    ensures { (i : ℕ) → row_bit 64 words.new i ≡ row_bit 8 set.now i }
{
    words.fill(0);
    for (k, bytes) in set.chunks(8).enumerate() {
        words[k] = word_of(bytes);
    }
}

// The words as the bytes of a set: eight of each word.
pub fn unpack(words: &[u64], set: &mut [u8])
    requires { length set.old ≤ 8 * length words.now }
    ensures { (i : ℕ) → i < 8 * length set.old
        → row_bit 8 set.new i ≡ row_bit 64 words.now i }
{
    for (k, byte) in set.iter_mut().enumerate() {
        *byte = words[k / 8].to_be_bytes()[k % 8];
    }
}

// How many events the set has: the ones of each word, added up; at most 4,096.
pub fn count(words: &[u64]) -> u64
    requires { length words.now ≤ 64 }
    ensures { result ≡ length (filter (row_bit 64 words.now)
        (from 0 (64 * length words.now))) }
{
    words.iter().map(|word| word.count_ones() as u64).sum()
}
