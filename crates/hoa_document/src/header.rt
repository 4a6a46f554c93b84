//! The header of a text.
ghost use Rattle.std.specs.Prelude.{ℕ, ◌^◌, ◌<◌, ◌≤◌, ◌≡◌, Bool, List, ◌∷◌, codes, MatchResult};
ghost use Rattle.hoa_tokens.specs.Scanning.{word, lexeme};
ghost use Rattle.hoa_grammar.specs.Documents.{most_states, most_signals, infinitely_often};
ghost use Rattle.hoa_grammar.specs.Machine.{Slot, due, at, starts as starts_slot, names as names_slot, blocks as blocks_slot, header_of};
ghost use Rattle.hoa_grammar.specs.Reading.{Reached, Refused};
ghost use Rattle.hoa_grammar.specs.Rows.{Row, none};
ghost use Rattle.hoa_document.specs.Standing.{Stands};
ghost use Rattle.hoa_document.specs.Drafting.{InRow, HeaderRead};
ghost use Rattle.hoa_document.specs.Naming.{row_of};

use crate::expect::{count, expect, expect_all, is_token, state};
use crate::names::Names;
use automaton::MOST_SIGNALS;
use hoa_tokens::{Fault, Mark, Placed, Read, Refusal, Text, Token};
use tables::MOST_TABLE_STATES;

/// `1 Inf(0) --BODY--`.
const INFINITELY_OFTEN: [Token<'static>; 6] = [
    Token::Number(1),
    Token::Word(b"Inf"),
    Token::Mark(Mark::OpenParen),
    Token::Number(0),
    Token::Mark(Mark::CloseParen),
    Token::Word(b"--BODY--"),
];

/// What a header says.
#[derive(Clone, Copy)]
pub(crate) struct Heading<'a> {
    pub states: u32,
    pub starts: u64,
    pub names: Names<'a>,
}

/// The header.
pub(crate) fn read_header<'a>(text: Text<'a>) -> Result<Read<'a, Heading<'a>>, Fault>
    ensures { MatchResult result (HeaderRead text.entry.bytes.now) (Refused text.entry.bytes.now) }
{
    let states = read_states(text)?;
    let starts = read_starts(text, states.head, states.value)?;
    let signals = read_signals(text, starts.head)?;
    let names = read_names(text, signals.head, signals.value)?;
    let head = read_acceptance(text, names.head)?;
    Ok(Read {
        value: Heading {
            states: states.value,
            starts: starts.value,
            names: names.value,
        },
        head,
    })
}

/// The number of states, from the text's first token on.
fn read_states<'a>(text: Text<'a>) -> Result<Read<'a, u32>, Fault>
    ensures { MatchResult result (λ x. (x.value ≤ most_states) × Reached text.entry.bytes.now (at (starts_slot x.value none)) x.head) (Refused text.entry.bytes.now) }
{
    let head = text.scan(0)?;
    let head = expect_all(
        text,
        head,
        &[
            Token::Word(b"HOA:"),
            Token::Word(b"v1"),
            Token::Word(b"States:"),
        ],
    )?;
    count(text, head, MOST_TABLE_STATES)
}

/// The starts, each behind a `Start:`.
fn read_starts<'a>(text: Text<'a>, head: Placed<'a>, states: u32) -> Result<Read<'a, u64>, Fault>
    requires few { states ≤ most_states }
    requires reached { Reached text.bytes.now (at (starts_slot states none)) head }
    ensures { MatchResult result (λ x. (row : Row ℕ) × Reached text.entry.bytes.now (at (starts_slot states row)) x.head × InRow x.value row × (x.value < 2 ^ states) × (lexeme x.head.token ≡ word (codes "Start:") → ⊥)) (Refused text.entry.bytes.now) }
{
    let mut starts = 0u64;
    let mut head = head;
    while is_token(&head, Token::Word(b"Start:")) {
        let behind = text.scan(head.next)?;
        let start = state(text, behind, states)?;
        starts |= 1 << start.value;
        head = start.head;
    }
    Ok(Read {
        value: starts,
        head,
    })
}

/// The number of signals behind `AP:`.
fn read_signals<'a>(text: Text<'a>, head: Placed<'a>) -> Result<Read<'a, u32>, Fault>
    requires { lexeme head.token ≡ word (codes "Start:") → ⊥ }
    ensures { (n : ℕ) (row : Row ℕ) → Reached text.entry.bytes.now (at (starts_slot n row)) head.entry → MatchResult result (λ x. (x.value ≤ most_signals) × Reached text.entry.bytes.now (at (names_slot n row none x.value)) x.head) (Refused text.entry.bytes.now) }
{
    let head = expect(text, head, Token::Word(b"AP:"))?;
    count(text, head, MOST_SIGNALS)
}

/// `acc-name: Buchi`, if it is there, and `Acceptance: 1 Inf(0) --BODY--`.
fn read_acceptance<'a>(text: Text<'a>, head: Placed<'a>) -> Result<Placed<'a>, Fault>
    ensures { (n : ℕ) (row : Row ℕ) (names : Row (List ℕ)) → Reached text.entry.bytes.now (at (names_slot n row names 0)) head.entry → MatchResult result (λ h. (told : Bool) × Reached text.entry.bytes.now (at (blocks_slot (header_of n row names told) none)) h) (Refused text.entry.bytes.now) }
{
    if is_token(&head, Token::Word(b"acc-name:")) {
        let head = text.scan(head.next)?;
        let head = expect(text, head, Token::Word(b"Buchi"))?;
        return read_condition(text, head);
    }
    read_condition(text, head)
}

/// `Acceptance: 1 Inf(0) --BODY--`.
fn read_condition<'a>(text: Text<'a>, head: Placed<'a>) -> Result<Placed<'a>, Fault>
    ensures { (k : Slot) → Stands text.entry.bytes.now (due (word (codes "Acceptance:") ∷ infinitely_often) k) head.entry → MatchResult result (Reached text.entry.bytes.now (at k)) (Refused text.entry.bytes.now) }
{
    let head = expect(text, head, Token::Word(b"Acceptance:"))?;
    expect_all(text, head, &INFINITELY_OFTEN)
}

/// So many names, none of them twice.
fn read_names<'a>(
    text: Text<'a>,
    head: Placed<'a>,
    signals: u32,
) -> Result<Read<'a, Names<'a>>, Fault>
    requires { signals ≤ most_signals }
    ensures { (n : ℕ) (row : Row ℕ) → Reached text.entry.bytes.now (at (names_slot n row none signals)) head.entry → MatchResult result (λ x. (x.value.count ≡ signals) × Reached text.entry.bytes.now (at (names_slot n row (row_of x.value) 0)) x.head) (Refused text.entry.bytes.now) }
{
    let mut names = Names::new();
    let mut head = head;
    for _ in 0..signals {
        let Token::Name(name) = head.token else {
            return Err(Refusal::Unexpected.at(head.place));
        };
        if names.contains(name) {
            return Err(Refusal::Repeated.at(head.place));
        }
        names.push(name);
        head = text.scan(head.next)?;
    }
    Ok(Read { value: names, head })
}
