// A line is words with a space between them: the first says what is called, by its first letter, and the others are numbers or bytes written as digits.

/// So many bytes a plan or its code has at most.
pub const MOST_BYTES: usize = 128;

/// The words of a line as numbers, from the second on.
pub type Numbers = [u64; 6];

/// The first letter; an empty line is a remark.
pub fn letter(line: &[u8]) -> u8 {
    line.first().copied().unwrap_or(b'#')
}

fn is_space(letter: &u8) -> bool {
    *letter == b' '
}

// A digit's number.
fn digit(letter: &u8) -> Option<u8> {
    letter.is_ascii_digit().then_some(letter.wrapping_sub(b'0'))
}

// The number that the digits in a word make; other letters are passed over. No line has a number above 2^64 - 1; what the digits of one make is of no use.
// Not by parse: letters among the digits are passed over, and numbers that are too large have an answer too.
fn number(word: &[u8]) -> u64 {
    word.iter().filter_map(digit).fold(0u64, |n, digit| {
        n.checked_mul(10)
            .unwrap_or(0)
            .wrapping_add(u64::from(digit))
    })
}

/// The words as numbers, from the second on; those that a line does not have are 0.
pub fn numbers(line: &[u8]) -> Numbers {
    let mut numbers = [0u64; 6];
    let words = line.split(is_space).skip(1);
    for (place, word) in numbers.iter_mut().zip(words) {
        *place = number(word);
    }
    numbers
}

/// The fourth word, which is written as bytes; empty where a line has none.
pub fn fourth(line: &[u8]) -> &[u8] {
    line.split(is_space).nth(3).unwrap_or(&[])
}

/// Puts the digits of a word into the places, a byte each, without those that are too many. Gives those places.
pub fn put_digits<'a>(word: &[u8], places: &'a mut [u8]) -> &'a [u8] {
    for (place, byte) in places.iter_mut().zip(word.iter().filter_map(digit)) {
        *place = byte;
    }
    let count = word.iter().filter_map(digit).count().min(places.len());
    &places[..count]
}

/// A number as a weight: its last 16 bits.
pub fn weight(n: u64) -> u16 {
    (n % 65536) as u16
}
