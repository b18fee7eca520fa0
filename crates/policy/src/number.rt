// The number of a field: an address, a port or a protocol, below 2 to the power 128. What stands above reaches it by these functions and by its value
// alone. Each leaves the numbers that it is given as they are.
ghost use Rattle.std.specs.Prelude.{◌≡◌, ◌+◌, ◌-◌, ◌*◌, ◌/◌, ◌%◌, ◌^◌, ◌≤◌, ◌<◌, suc, min, max, leb, length};
ghost use Rattle.std.proofs.lemmas.List.Edits.{sets};
ghost use Rattle.hexlines.specs.Numbers.{number_bytes};
ghost use Rattle.policy.specs.Words.{word_size, of_words};
ghost use Rattle.policy.specs.Views.{value};

#[derive(Clone, Copy, Debug, PartialEq, Eq, PartialOrd, Ord)]
pub struct Number(u128);

// How many bits a number has, and how many bytes.
const BITS: usize = u128::BITS as usize;

const BYTES: usize = BITS / 8;

// How many values a word has.
const WORD_SIZE: u128 = 1 << 64;

#[tactic(auto, unfolding(crate::specs::Views::value))]
impl Number {
    // The number of this value.
    pub fn new(n: u64) -> Number
        ensures { value result ≡ n }
    {
        Number(u128::from(n))
    }

    // The number of two words, the more significant first.
    pub fn of_words(upper: u64, lower: u64) -> Number
        ensures { value result ≡ of_words upper lower }
    {
        Number(u128::from(upper) * WORD_SIZE + u128::from(lower))
    }

    // The more significant word.
    pub fn upper_word(self) -> u64
        ensures { result ≡ value self / word_size }
    {
        (self.0 / WORD_SIZE) as u64
    }

    // The less significant word, which is the number where that is small enough.
    pub fn lower_word(self) -> u64
        ensures { result ≡ value self % word_size }
    {
        (self.0 % WORD_SIZE) as u64
    }

    // Whether self is at most other.
    pub fn at_most(self, other: Number) -> bool
        ensures { result ≡ leb (value self) (value other) }
    {
        self <= other
    }

    // The number after self, which is below limit.
    pub fn next(self, limit: Number) -> Number
        requires { value self < value limit }
        ensures { value result ≡ suc (value self) }
    {
        Number(self.0 + 1)
    }

    // The number before self, which is above least.
    pub fn previous(self, least: Number) -> Number
        requires { value least < value self }
        ensures { value result ≡ value self - 1 }
    {
        Number(self.0 - 1)
    }

    // The last bit of the number.
    pub fn last_bit(self) -> u8
        ensures { result ≡ value self % 2 }
    {
        (self.0 % 2) as u8
    }

    // The number without its last bit.
    pub fn half(self) -> Number
        ensures { value result ≡ value self / 2 }
    {
        Number(self.0 / 2)
    }

    // The number with k bits more, which are 0; it is at most limit.
    pub fn raised(self, k: usize, limit: Number) -> Number
        requires { value self * 2 ^ k ≤ value limit }
        ensures { value result ≡ value self * 2 ^ k }
    {
        if k < BITS {
            Number(self.0 << k)
        } else {
            Number(0)
        }
    }

    // The lesser of the two.
    pub fn lesser(self, other: Number) -> Number
        ensures { value result ≡ min (value self) (value other) }
    {
        self.min(other)
    }

    // The greater of the two.
    pub fn greater(self, other: Number) -> Number
        ensures { value result ≡ max (value self) (value other) }
    {
        self.max(other)
    }

    // Byte k of the number, counted from the least significant.
    pub fn byte(self, k: usize) -> u8
        ensures { result ≡ (value self / (256 ^ k)) % 256 }
    {
        if k < BYTES {
            ((self.0 >> (8 * k)) % 256) as u8
        } else {
            0
        }
    }

    // Writes the number's last `width` bytes, the most significant first, into bytes from place at on. The rest of bytes is unchanged.
    pub fn put(self, width: usize, bytes: &mut [u8], at: usize)
        requires { at + width ≤ length bytes.old }
        ensures { bytes.new ≡ sets bytes.old at (number_bytes width (value self)) }
    {
        for k in 0..width {
            bytes[at + k] = self.byte(width - 1 - k);
        }
    }
}
