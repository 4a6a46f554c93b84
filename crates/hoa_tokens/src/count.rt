//! The tokens of a whole text.
ghost use Rattle.std.specs.Prelude.{◌≤◌, length};
ghost use Rattle.hoa_tokens.specs.Cuts.{Counted};

use crate::fault::Fault;
use crate::text::Text;
use crate::token::Token;

impl Text<'_> {
    /// How many tokens the text has before its end, or its first fault of this layer.
    pub fn count(self) -> Result<usize, Fault>
        ensures { Counted self.entry.bytes.now 0 result }
    {
        self.count_from(0)
    }

    /// How many tokens the text has from a position on.
    fn count_from(self, start: usize) -> Result<usize, Fault>
        requires { start ≤ length self.bytes.now }
        ensures { Counted self.entry.bytes.now start result }
    {
        let mut tokens = 0;
        let mut from = start;
        loop {
            let found = self.scan(from)?;
            if let Token::End = found.token {
                return Ok(tokens);
            }
            tokens += 1;
            from = found.next;
        }
    }
}
