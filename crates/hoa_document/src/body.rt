//! The blocks of a text, and the draft of the table that it means.
ghost use Rattle.std.specs.Prelude.{◌≡◌, ℕ, ◌*◌, ◌/◌, ◌%◌, ◌^◌, ◌<◌, ◌≤◌, true, false, ◌⊎◌, IfOk, codes, MatchResult, ◌≢◌, bit_or};
ghost use Rattle.omega.specs.Signals.{bit};
ghost use Rattle.hoa_tokens.specs.declared.fault.Refusal.TheVariants.{OutOfRange, Repeated};
ghost use Rattle.hoa_tokens.specs.Scanning.{word, lexeme};
ghost use Rattle.hoa_grammar.specs.Documents.{Header, Block, Document, most_states};
ghost use Rattle.hoa_grammar.specs.Machine.{Current, at, state as state_slot, good as good_slot, blocks as blocks_slot, edges as edges_slot};
ghost use Rattle.hoa_grammar.specs.Reading.{Reached, Refused};
ghost use Rattle.hoa_grammar.specs.Rows.{Row, size};
ghost use Rattle.hoa_document.specs.Drafting.{Described, Drafted, BeginsEdge, Sized, LettersRead, InBlock, SomeBlock, BlockRead, BlocksRead, HeaderRead, DocumentRead};
ghost use Rattle.hoa_document.specs.Naming.{row_of};
ghost use Rattle.hoa_document.specs.Standing.{Stands};

use crate::expect::{expect, expect_all, is_token, read_number, state};
use crate::header::Heading;
use hoa_labels::{Signals, read_label};
use hoa_tokens::{Fault, Mark, Placed, Read, Refusal, Text, Token};
use tables::Draft;

/// The letters of an edge, and its target in hand: those of its label, or all.
fn read_letters<'a>(
    text: Text<'a>,
    head: Placed<'a>,
    signals: Signals,
) -> Result<Read<'a, u16>, Fault>
    requires { BeginsEdge head }
    ensures { (cur : Current) → size cur.header.names ≡ signals.count → Stands text.entry.bytes.now (at (edges_slot cur)) head.entry → MatchResult result (LettersRead text.entry.bytes.now cur signals.count) (Refused text.entry.bytes.now) }
{
    // A pattern and no `==` of tokens, since every edge is asked.
    if let Token::Mark(Mark::OpenBracket) = head.token {
        let behind = text.scan(head.next)?;
        return read_label(text, behind, signals);
    }
    Ok(Read {
        value: signals.all_letters(),
        head,
    })
}

/// Whether an edge begins with the token in hand.
fn begins_edge(head: &Placed<'_>) -> bool
    ensures is { result ≡ true → BeginsEdge head.now }
    ensures other { result ≡ false → BeginsEdge head.now → ⊥ }
{
    matches!(
        head.token,
        Token::Number(_) | Token::Mark(Mark::OpenBracket)
    )
}

/// The edges of a block, each of which is added to the draft.
// Only this function and `read_blocks` take text, states, signals and draft together, and they say different things of them.
fn read_edges<'a>(
    text: Text<'a>,
    head: Placed<'a>,
    states: u32,
    signals: Signals,
    from: u32,
    draft: &mut Draft,
) -> Result<Placed<'a>, Fault>
    requires below { from < states }
    requires block { SomeBlock text.bytes.now states signals.count from draft.old head }
    ensures { (h : Header) (bs : Row Block) (b : Block) → Sized h states signals.count → InBlock text.entry.bytes.now h bs b from draft.old head.entry → MatchResult result (BlockRead text.entry.bytes.now h bs from draft.new) (Refused text.entry.bytes.now) }
{
    let mut head = head;
    while begins_edge(&head) {
        let Read {
            value: letters,
            head: target,
        } = read_letters(text, head, signals)?;
        let to = state(text, target, states)?;
        draft.add_steps(from, letters, to.value);
        head = to.head;
    }
    Ok(head)
}

/// `{0}`, if it is there, which makes the block's state good.
fn read_good<'a>(
    text: Text<'a>,
    head: Placed<'a>,
    from: u32,
    draft: &mut Draft,
) -> Result<Placed<'a>, Fault>
    ensures { (h : Header) (bs : Row Block) → Drafted h bs draft.old → from < h.states → Reached text.entry.bytes.now (at (good_slot h bs from)) head.entry → MatchResult result (λ x. (b : Block) × InBlock text.entry.bytes.now h bs b from draft.new x) (Refused text.entry.bytes.now) }
{
    if !is_token(&head, Token::Mark(Mark::OpenBrace)) {
        return Ok(head);
    }
    let zero = text.scan(head.next)?;
    let behind = expect_all(
        text,
        zero,
        &[Token::Number(0), Token::Mark(Mark::CloseBrace)],
    )?;
    draft.add_good(from);
    Ok(behind)
}

/// Why a block cannot describe a state: there is no such state, or a block before it does.
fn check_described(value: u32, states: u32, described: u64) -> Result<(), Refusal>
    requires { states ≤ most_states }
    ensures { MatchResult result (λ _. (value < states) × (described / 2 ^ value % 2 ≢ 1)) (λ e. ((states ≤ value) × (e ≡ OutOfRange)) ⊎ ((value < states) × (described / 2 ^ value % 2 ≡ 1) × (e ≡ Repeated))) }
{
    if value >= states {
        return Err(Refusal::OutOfRange);
    }
    if (described >> value) % 2 == 1 {
        return Err(Refusal::Repeated);
    }
    Ok(())
}

/// The states that are described, and one more.
fn with_described(described: u64, value: u32) -> u64
    requires { value < most_states }
    ensures { result ≡ bit_or described ((1 * 2 ^ value) % 2 ^ 64) }
{
    described | 1 << value
}

/// The state that a block describes, which no block before it did.
fn read_described<'a>(
    text: Text<'a>,
    head: Placed<'a>,
    states: u32,
    described: u64,
) -> Result<Read<'a, u32>, Fault>
    requires { states ≤ most_states }
    ensures read { (h : Header) (bs : Row Block) → h.states ≡ states → Described bs described → Reached text.entry.bytes.now (at (state_slot h bs)) head.entry → MatchResult result (λ x. Reached text.entry.bytes.now (at (good_slot h bs x.value)) x.head) (Refused text.entry.bytes.now) }
    ensures fresh { IfOk result (λ x. (x.value < states) × (bit x.value described ≡ false)) }
{
    read_number(
        text,
        head,
        |value| check_described(value, states, described),
    )
}

/// All blocks behind a header.
fn read_blocks<'a>(
    text: Text<'a>,
    header: &Read<'a, Heading<'a>>,
    signals: Signals,
    draft: &mut Draft,
) -> Result<Placed<'a>, Fault>
    requires few { header.now.value.states ≤ most_states }
    requires none { BlocksRead text.bytes.now header.now.value.states signals.count (row_of header.now.value.names) 0 draft.old header.now.head }
    ensures { MatchResult result (λ x. (lexeme x.token ≡ word (codes "State:") → ⊥) × ((set : ℕ) × BlocksRead text.entry.bytes.now header.now.value.states signals.count (row_of header.now.value.names) set draft.new x)) (Refused text.entry.bytes.now) }
{
    let states = header.value.states;
    let mut head = header.head;
    let mut described = 0u64;
    while is_token(&head, Token::Word(b"State:")) {
        let behind = text.scan(head.next)?;
        let from = read_described(text, behind, states, described)?;
        let edges = read_good(text, from.head, from.value, draft)?;
        head = read_edges(text, edges, states, signals, from.value, draft)?;
        described = with_described(described, from.value);
    }
    Ok(head)
}

/// The end of the body and of the text.
fn read_end<'a>(text: Text<'a>, head: Placed<'a>) -> Result<(), Fault>
    requires { lexeme head.token ≡ word (codes "State:") → ⊥ }
    ensures { (h : Header) (rows : Row Block) → Stands text.entry.bytes.now (at (blocks_slot h rows)) head.entry → MatchResult result (λ _. DocumentRead text.entry.bytes.now (record { header = h; blocks = rows })) (Refused text.entry.bytes.now) }
{
    let last = expect(text, head, Token::Word(b"--END--"))?;
    if !is_token(&last, Token::End) {
        return Err(Refusal::Unexpected.at(last.place));
    }
    Ok(())
}

/// The body behind a header, and the table that the two mean, as a draft.
pub(crate) fn read_body<'a>(text: Text<'a>, header: &Read<'a, Heading<'a>>) -> Result<Draft, Fault>
    requires { HeaderRead text.bytes.now header.now }
    ensures { MatchResult result (λ draft. (d : Document) × DocumentRead text.entry.bytes.now d × Drafted d.header d.blocks draft × (d.header.names ≡ row_of header.now.value.names)) (Refused text.entry.bytes.now) }
{
    let heading = &header.value;
    let signals = Signals::new(heading.names.count).unwrap();
    let mut draft = Draft::new(heading.states, heading.names.count).unwrap();
    draft.add_starts(heading.starts);
    let head = read_blocks(text, header, signals, &mut draft)?;
    read_end(text, head)?;
    Ok(draft)
}
