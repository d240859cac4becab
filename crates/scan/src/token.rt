ghost use Rattle.std.specs.Prelude.{◌≡◌, ◌-◌, if◌then◌else◌, is_some, Some, None};
ghost use Rattle.scan.specs.Numbers.{digit, number_of};
ghost use Rattle.scan.specs.Tokens.{is_number, piece, worth_of};

// A token borrows its part of the text, and says where that starts. Two cases with the same parts, since which of the two
// it is decides what a text means.
// A number is made of decimal digits and is worth at most 65,535; anything else is a word.
#[derive(Clone, Copy, Debug)]
pub enum Token<'a> {
    Number { text: &'a [u8], place: usize },
    Word { text: &'a [u8], place: usize },
}

impl<'a> Token<'a> {
    // The token that a part of the text is.
    pub(crate) fn new(text: &'a [u8], place: usize) -> Token<'a>
        ensures is_the_part { piece result ≡ record { place = place; bytes = text.now } }
        ensures is_a_number_if_its_bytes_are { is_number result ≡ is_some (number_of text.now) }
    {
        match number(text) {
            Some(_) => Token::Number { text, place },
            None => Token::Word { text, place },
        }
    }

    // The part of the text that the token is.
    pub fn text(&self) -> &'a [u8]
        ensures is_its_bytes { result.now ≡ (piece self.now).bytes }
    {
        match *self {
            Token::Number { text, .. } | Token::Word { text, .. } => text,
        }
    }

    // What a number is worth; a word is worth nothing.
    pub fn worth(&self) -> Option<u16>
        ensures is_worth_of_a_number { result ≡ worth_of self.now }
    {
        match *self {
            Token::Number { text, .. } => number(text),
            Token::Word { .. } => None,
        }
    }
}

// What a text of decimal digits is worth, if that is at most 65,535. (`parse` would take a sign.)
#[tactic(auto, using(crate::proofs::Digits::too_large))]
pub fn number(text: &[u8]) -> Option<u16>
    ensures is_worth_of_digits { result ≡ number_of text.now }
{
    let mut worth: u16 = 0;
    for b in text {
        let digit = char::from(*b).to_digit(10)?;
        worth = u16::try_from(u32::from(worth) * 10 + digit).ok()?;
    }
    Some(worth)
}
