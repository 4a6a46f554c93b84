//! Tokens that have to come next.
//!
//! The text and its token in hand stay two parameters: of a struct of both each contract would have to say that its text is still the same.
ghost use Rattle.std.specs.Prelude.{◌≡◌, ℕ, ◌<◌, ◌≤◌, ◌↔◌, IsTrue, List, ◌∷◌, map, IfOk, Ok, MatchResult, ◌≢◌, nat_lt};
ghost use Rattle.std.specs.List.{list_all};
ghost use Rattle.hoa_tokens.specs.declared.fault.Refusal.TheVariants.{Unexpected, TooMany};
ghost use Rattle.hoa_tokens.specs.Faults.{fault_at};
ghost use Rattle.hoa_tokens.specs.Scanning.{Lexeme, number as number_of, lexeme, found, Ahead, clipped};
ghost use Rattle.hoa_grammar.specs.Documents.{state_limit};
ghost use Rattle.hoa_grammar.specs.Marking.{Limit, breaks_if, kept};
ghost use Rattle.hoa_grammar.specs.Machine.{Slot, due, at};
ghost use Rattle.hoa_grammar.specs.Reading.{Reached, Refused};
ghost use Rattle.hoa_document.specs.Standing.{Stands, is_fixed, Tests, NumberRead};

use hoa_tokens::{Fault, Placed, Read, Refusal, Text, Token};

/// Whether the token in hand is this one.
// The test has a contract of its own: the proof of `read_blocks`, which is long, did not get through a plain `==` of tokens.
pub(crate) fn is_token(head: &Placed<'_>, token: Token<'_>) -> bool
    ensures { IsTrue result ↔ (lexeme head.now.token ≡ lexeme token.entry) }
{
    head.token == token
}

/// The token behind one that is due, which is no name and not the text's end.
pub(crate) fn expect<'a>(
    text: Text<'a>,
    head: Placed<'a>,
    token: Token<'_>,
) -> Result<Placed<'a>, Fault>
    requires { IsTrue (is_fixed (lexeme token)) }
    ensures { (ws : List Lexeme) (k : Slot) → Stands text.entry.bytes.now (due (lexeme token.entry ∷ ws) k) head.entry → MatchResult result (Reached text.entry.bytes.now (due ws k)) (Refused text.entry.bytes.now) }
{
    if !is_token(&head, token) {
        return Err(Refusal::Unexpected.at(head.place));
    }
    text.scan(head.next)
}

/// The token behind those that are due, one behind the other.
pub(crate) fn expect_all<'a>(
    text: Text<'a>,
    head: Placed<'a>,
    tokens: &[Token<'_>],
) -> Result<Placed<'a>, Fault>
    requires { IsTrue (list_all is_fixed (map lexeme tokens.now)) }
    ensures { (k : Slot) → Reached text.entry.bytes.now (due (map lexeme tokens.now) k) head.entry → MatchResult result (Reached text.entry.bytes.now (at k)) (Refused text.entry.bytes.now) }
{
    let mut head = head;
    for token in tokens {
        head = expect(text, head, *token)?;
    }
    Ok(head)
}

/// The number that has to be in hand.
fn number(head: &Placed<'_>) -> Result<u32, Fault>
    ensures { MatchResult result (λ n. lexeme head.now.token ≡ number_of n) (λ f. ((n : ℕ) → lexeme head.now.token ≢ number_of n) × (f ≡ fault_at Unexpected head.now.place)) }
{
    match head.token {
        Token::Number(n) => Ok(n),
        _ => Err(Refusal::Unexpected.at(head.place)),
    }
}

/// The number that has to be in hand and to pass the test, and the token behind it.
pub(crate) fn read_number<'a, F: FnOnce(u32) -> Result<(), Refusal> + Drop>(
    text: Text<'a>,
    head: Placed<'a>,
    test: F,
) -> Result<Read<'a, u32>, Fault>
    requires { F.IsAlwaysCallable test }
    ensures read { (limit : ℕ → Limit) → Tests (F.post test) limit → NumberRead text.entry.bytes.now head.entry limit result }
    ensures passed { IfOk result (λ x. F.post test x.value (Ok tt)) }
    ensures here { IfOk result (λ x. lexeme head.entry.token ≡ number_of x.value) }
    ensures ahead { IfOk result (λ x. Ahead text.entry.bytes.now (clipped text.entry.bytes.now head.entry.next) (found (Ok x.head))) }
{
    let value = number(&head)?;
    test(value).map_err(|refusal| refusal.at(head.place))?;
    let head = text.scan(head.next)?;
    Ok(Read { value, head })
}

/// The state that has to be in hand, below `states`, and the token behind it.
pub(crate) fn state<'a>(
    text: Text<'a>,
    head: Placed<'a>,
    states: u32,
) -> Result<Read<'a, u32>, Fault>
    ensures read { NumberRead text.entry.bytes.now head.entry (state_limit states) result }
    ensures below { IfOk result (λ x. x.value < states) }
    ensures here { IfOk result (λ x. lexeme head.entry.token ≡ number_of x.value) }
    ensures ahead { IfOk result (λ x. Ahead text.entry.bytes.now (clipped text.entry.bytes.now head.entry.next) (found (Ok x.head))) }
{
    read_number(text, head, |n| {
        if n < states {
            Ok(())
        } else {
            Err(Refusal::OutOfRange)
        }
    })
}

/// The count that has to be in hand, at most `most`, and the token behind it.
pub(crate) fn count<'a>(text: Text<'a>, head: Placed<'a>, most: u32) -> Result<Read<'a, u32>, Fault>
    ensures read { NumberRead text.entry.bytes.now head.entry (λ n. breaks_if (nat_lt most n) TooMany kept) result }
    ensures below { IfOk result (λ x. x.value ≤ most) }
{
    read_number(text, head, |n| {
        if n <= most {
            Ok(())
        } else {
            Err(Refusal::TooMany)
        }
    })
}
