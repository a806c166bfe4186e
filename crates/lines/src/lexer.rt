// Cuts a line into words. A word is a part of the text, handed out with its place there.
ghost use Rattle.std.specs.Prelude.{◌≡◌, ◌+◌, ◌-◌, ◌^◌, ◌<◌, ◌≤◌, length, drop};
ghost use Rattle.std.specs.Option.{option_map};
ghost use Rattle.std.specs.List.{prefix_len, take_while};
ghost use Rattle.lines.specs.Words.{words, is_space, other, all_digits, figure, first, others};

// A word of the text with its place: a figure is an optional minus and one or more digits, any other word a name.
#[derive(Clone, Copy)]
pub enum Word<'a> {
    Name(&'a [u8], usize),
    Figure(&'a [u8], usize),
}

impl<'a> Word<'a> {
    ghost use Rattle.lines.specs.Lexers.{spelled, spelled_at, word_bytes};

    pub fn bytes(self) -> &'a [u8]
        ensures { result.now ≡ word_bytes self.entry }
    {
        match self {
            Word::Name(bytes, _) | Word::Figure(bytes, _) => bytes,
        }
    }

    // A word of the kind that its bytes are.
    fn at(bytes: &'a [u8], place: usize) -> Word<'a>
        ensures word { spelled result ≡ spelled_at bytes.now place }
        ensures bytes { word_bytes result ≡ bytes.now }
    {
        if is_figure(bytes) {
            Word::Figure(bytes, place)
        } else {
            Word::Name(bytes, place)
        }
    }
}

// Hands out the words of a text, from a place in it on, one after the other: the bytes that are left, and the place of
// the first of them. Its clauses name both, since a view as the words alone would lose their places.
#[derive(Clone, Copy)]
pub struct Lexer<'a> {
    rest: &'a [u8],
    at: usize,
    ghost within: { at + length rest.now < 2 ^ 64 },
}

impl<'a> Lexer<'a> {
    ghost use Rattle.lines.specs.Lexers.{spelled, word_bytes, next_word, pending};

    pub fn new(text: &'a [u8], from: usize) -> Lexer<'a>
        ensures rest { result.rest.now ≡ drop from text.now }
        ensures at { result.at ≡ from }
        ensures words { pending result ≡ words (drop from text.now) }
    {
        Lexer {
            rest: text.get(from..).unwrap_or_default(),
            at: from,
        }
    }

    // The lexer after some bytes more.
    fn ahead(self, bytes: usize) -> Lexer<'a>
        requires { bytes ≤ length self.rest.now }
        ensures rest { result.rest.now ≡ drop bytes self.entry.rest.now }
        ensures at { result.at ≡ self.entry.at + bytes }
    {
        Lexer {
            rest: &self.rest[bytes..],
            at: self.at + bytes,
        }
    }

    // The next word, or nothing where only spaces are left.
    pub fn next_word(&mut self) -> Option<Word<'a>>
        ensures word { option_map spelled result ≡ next_word self.old }
        ensures bytes { option_map word_bytes result ≡ first (pending self.old) }
        ensures others { pending self.new ≡ others (pending self.old) }
        ensures rest { self.new.rest.now ≡ drop (self.new.at - self.old.at) self.old.rest.now }
    {
        let start = self.ahead(leading_spaces(self.rest));
        // Spaces are passed once, also where no word follows them.
        *self = start;
        if start.rest.is_empty() {
            return None;
        }
        let length = bytes_before(start.rest, b' ');
        let (word, _) = start.rest.split_at(length);
        *self = start.ahead(length);
        Some(Word::at(word, start.at))
    }
}

// How many spaces a text begins with.
fn leading_spaces(text: &[u8]) -> usize
    ensures { result ≡ length (take_while is_space text.now) }
{
    text.iter().take_while(|b| **b == b' ').count()
}

// How many bytes stand before another one, or all where it is not there.
fn bytes_before(text: &[u8], byte: u8) -> usize
    ensures { result ≡ length (take_while (other byte) text.now) }
{
    text.iter().take_while(|b| **b != byte).count()
}

// Where a byte next stands, from a place on, or the end of the text.
#[tactic(auto, using(crate::proofs::Runs::run_length))]
pub fn index_of(text: &[u8], from: usize, byte: u8) -> usize
    ensures { result ≡ from + prefix_len (other byte) (drop from text.now) }
{
    from + bytes_before(text.get(from..).unwrap_or_default(), byte)
}

fn is_figure(word: &[u8]) -> bool
    ensures { result ≡ figure word.now }
{
    match word {
        [] => false,
        [b'-', digits @ ..] => !digits.is_empty() && is_digits(digits),
        _ => is_digits(word),
    }
}

fn is_digits(word: &[u8]) -> bool
    ensures { result ≡ all_digits word.now }
{
    word.iter().all(|b| b.is_ascii_digit())
}
