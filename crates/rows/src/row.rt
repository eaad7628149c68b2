// The word and the numbers of a row.
ghost use Rattle.std.specs.Prelude.{◌≡◌, length};
ghost use Rattle.rows.specs.Row.{with_letter, spelled_below, spells, number_at, word_at, are_words, is_words, words_at};

// A row, or a line that is none: its word is 0 then, which no letters spell.
// Kept: fixed memory: a row is a value, and no call allocates.
#[derive(Clone, Copy)]
pub struct Row {
    // The word as `spelled` makes a number of it.
    pub(crate) word: u64,
    // How many numbers it has.
    pub(crate) count: usize,
    pub(crate) numbers: [u64; 256],
}

// A word with one letter more.
pub(crate) fn with_letter(word: u64, letter: u8) -> u64
    ensures { result ≡ with_letter word letter }
{
    word % 0x100_0000_0000_0000 * 256 + letter as u64
}

// A word's last eight letters as one number. Words of fewer letters differ in it from each other and from all longer ones.
fn spelled(letters: &[u8]) -> u64
    ensures { result ≡ spelled_below letters.now (length letters.now) }
{
    let mut word: u64 = 0;
    for letter in letters {
        word = with_letter(word, *letter);
    }
    word
}

// Whether a row has a word.
pub fn is(row: Row, letters: &[u8]) -> bool
    ensures { result ≡ spells row letters.now }
{
    row.word == spelled(letters)
}

// How many numbers a row has.
pub fn count(row: Row) -> usize
    ensures { result ≡ row.count }
{
    row.count
}

// The number at a place, or 0.
pub fn long(row: Row, at: usize) -> u64
    ensures { result ≡ number_at row at }
{
    let numbers = row.numbers;
    if at < 256 { numbers[at] } else { 0 }
}

// The word at a place that has been found to hold one.
pub fn word(row: Row, at: usize) -> u32
    ensures { result ≡ word_at row at }
{
    (long(row, at) % 0x1_0000_0000) as u32
}

// Whether a row has every place before `to`, and from `from` on words, numbers of 32 bits, there.
pub fn are_words(row: Row, from: usize, to: usize) -> bool
    ensures { result ≡ are_words row from to }
{
    let mut all = true;
    for i in 0..to {
        all = all & ((i < from) | (long(row, i) < 0x1_0000_0000));
    }
    (to <= row.count) & all
}

// Whether a row is so many words.
pub fn is_words(row: Row, n: usize) -> bool
    ensures { result ≡ is_words row n }
{
    (row.count == n) & are_words(row, 0, n)
}

// The words from a place on, as many as the array holds: a record's or an A32 access's values are sixteen, a state's are 48.
pub fn words<const N: usize>(row: Row, from: u8) -> [u32; N]
    ensures { result ≡ words_at row from N }
{
    let mut words = [0u32; N];
    for i in 0..N {
        words[i] = word(row, from as usize + i);
    }
    words
}
