ghost use Rattle.std.specs.Prelude.{◌≡◌, [], length};
ghost use Rattle.std.specs.Iterator.{at_most};
ghost use Rattle.scan.specs.Cuts.{separator, cut};
ghost use Rattle.scan.specs.Tokens.{left, text_of, GivesTheFirst};

use super::Scanner;
use crate::token::Token;

fn is_separator(b: u8) -> bool
    ensures tells_separators { result ≡ separator b }
{
    matches!(b, b' ' | b'\t' | b'\r' | b'\n')
}

impl<'a> Scanner<'a> {
    // A scanner of the whole text.
    pub fn new(source: &'a [u8]) -> Scanner<'a>
        ensures has_every_piece_left { left result ≡ cut 0 [] source.now }
        ensures holds_the_text { text_of result ≡ source.now }
    {
        Scanner { source, at: 0 }
    }
}

impl<'a> Iterator for Scanner<'a> {
    type Item = Token<'a>;

    ghost next_gives = { GivesTheFirst };

    ghost remaining = { λ s. at_most (length (left s)) };

    // The next token, or None at the text's end.
    #[tactic(auto, using(crate::proofs::Parts::parts, crate::proofs::Pieces::no_piece))]
    fn next(&mut self) -> Option<Token<'a>> {
        let rest = &self.source[self.at..];
        let Some(gap) = rest.iter().position(|b| !is_separator(*b)) else {
            // so that a further call does not read the separators again
            self.at = self.source.len();
            return None;
        };
        let word = &rest[gap..];
        let len = word
            .iter()
            .position(|b| is_separator(*b))
            .unwrap_or(word.len());
        let place = self.at + gap;
        self.at = place + len;
        Some(Token::new(&word[..len], place))
    }
}
