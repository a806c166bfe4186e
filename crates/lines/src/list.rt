// The numbers at the end of a line, up to seven of them, and how they are read.
ghost use Rattle.std.specs.Prelude.{◌≡◌};
ghost use Rattle.std.specs.Option.{option_map};
ghost use Rattle.lines.specs.Words.{others as after_first};
ghost use Rattle.lines.specs.Lexers.{pending};
ghost use Rattle.lines.specs.Lists.{list_from, first_number, number_list};

use crate::lexer::{Lexer, Word};
use crate::number::{Radix, number_of};
use arrays::list::FixedList;

// Up to seven numbers, with zeros behind them.
pub type NumberList = FixedList<i32, 7>;

// The number that the next word writes.
pub(crate) fn next_number(words: &mut Lexer, radix: Radix) -> Option<i32>
    ensures value { result ≡ first_number radix (pending words.old) }
    ensures others { pending words.new ≡ after_first (pending words.old) }
{
    match words.next_word()? {
        Word::Figure(bytes, _) => number_of(radix, bytes),
        Word::Name(_, _) => None,
    }
}

// All the words that are left as numbers: 1 to 7 of them.
pub(crate) fn all_numbers(words: &mut Lexer, radix: Radix) -> Option<NumberList>
    ensures { result ≡ option_map list_from (number_list radix (pending words.old)) }
{
    let mut numbers = FixedList::new(0);
    while let Some(word) = words.next_word() {
        numbers.push(number_of(radix, word.bytes())?).ok()?;
    }
    (!numbers.as_slice().is_empty()).then_some(numbers)
}
