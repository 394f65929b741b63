ghost use Rattle.std.specs.Prelude.{◌≡◌, ◌∷◌, [], IfOk, List, MatchOption, OnErr, Some, true, false, ℕ};
ghost use Rattle.std.specs.Char.{is_ascii_digit};
ghost use Rattle.std.specs.List.{list_all};
ghost use Rattle.rly_daemon_lines.specs.HelpersLineReader.{HasTwo};
ghost use Rattle.rly_daemon_lines.specs.Grammar.{CarriesBytes, HasBytes, ask_in_line, done_in, fetch_in};
ghost use Rattle.rly_daemon_lines.specs.Grammar.{hop_and_number_in, hop_in, id_in, is_numeral, number_in, payload_in};
ghost use Rattle.rly_daemon_lines.specs.Grammar.{peer_in, pick_in, show_in, take_in, take_of, window_in, ask_in_words};
ghost use Rattle.rly_daemon_lines.specs.Grammar.{words_of};

use crate::bytes::{decode_hexadecimal, is_hexadecimal, position_of};
use rly_core::{HopId, PeerId, limits};
use rly_machine::{Ask, Command, Payload, Query};
use std::alloc::{AllocError, Global};

/// Parses a line without its newline (`docs/COMMANDS.md`, "Lines"): `None` if it is no command and no query. Takes
/// memory only for a payload.
pub fn parse_line(alloc: Global, line: &[u8]) -> Result<Option<Ask>, AllocError>
    ensures asks { IfOk result (λ ask. ask ≡ ask_in_line line.now) }
    ensures memory { OnErr result (CarriesBytes (ask_in_line line.now)) }
{
    if line.len() as u64 > limits::MAX_LINE {
        return Ok(None);
    }
    let Some((verb, args)) = cut(line) else {
        return Ok(None);
    };
    parse_words(alloc, verb, args)
}

/// Parses a verb and its arguments.
fn parse_words(alloc: Global, verb: &[u8], args: &[u8]) -> Result<Option<Ask>, AllocError>
    ensures asks { IfOk result (λ ask. ask ≡ ask_in_words (verb.now ∷ words_of args.now)) }
    ensures memory { OnErr result (CarriesBytes (ask_in_words (verb.now ∷ words_of args.now))) }
{
    if verb == b"take".as_slice() {
        parse_take(alloc, args)
    } else if verb == b"pick".as_slice() {
        Ok(parse_pick(args))
    } else if verb == b"done".as_slice() {
        Ok(parse_done(args))
    } else if verb == b"fetch".as_slice() {
        Ok(parse_fetch(args))
    } else if verb == b"window".as_slice() {
        Ok(parse_window(args))
    } else if verb == b"show".as_slice() {
        Ok(parse_show(args))
    } else {
        Ok(None)
    }
}

/// `PEER NUMBER HOP STAMP PAYLOAD`, and an optional LIMIT.
fn parse_take(alloc: Global, args: &[u8]) -> Result<Option<Ask>, AllocError>
    ensures asks { IfOk result (λ ask. ask ≡ take_in (words_of args.now)) }
    ensures memory { OnErr result (CarriesBytes (take_in (words_of args.now))) }
{
    let Some((peer, args)) = cut(args) else {
        return Ok(None);
    };
    let Some((number, args)) = cut(args) else {
        return Ok(None);
    };
    let Some((hop, args)) = cut(args) else {
        return Ok(None);
    };
    let Some((stamp, rest)) = cut(args) else {
        return Ok(None);
    };
    match cut_limit(rest) {
        Some((payload, limit)) => {
            let limit = parse_number(limit);
            take_ask(alloc, peer, number, hop, stamp, payload, limit)
        }
        None => take_ask(alloc, peer, number, hop, stamp, rest, Some(0)),
    }
}

/// The length in bytes of the space before a limit and the longest number.
const LIMIT_BYTES: usize = 21;

/// The payload of a Take and its limit, if there is one. A payload may be long, so the space between them is
/// searched only at the end.
fn cut_limit(text: &[u8]) -> Option<(&[u8], &[u8])>
    ensures { (peer number hop stamp : List ℕ) → MatchOption result
        (take_in (peer ∷ number ∷ hop ∷ stamp ∷ words_of text.now) ≡ take_of peer number hop stamp text.now (Some 0))
        (λ parts. take_in (peer ∷ number ∷ hop ∷ stamp ∷ words_of text.now)
        ≡ take_of peer number hop stamp parts.0.now (number_in parts.1.now)) }
{
    let start = text.len().saturating_sub(LIMIT_BYTES);
    let found = position_of(&text[start..], b' ')?;
    let at = start + found;
    Some((&text[..at], &text[at + 1..]))
}

/// The Take of five words and its limit. The payload is decoded last, so that a faulty Take takes no memory.
fn take_ask(
    alloc: Global,
    peer: &[u8],
    number: &[u8],
    hop: &[u8],
    stamp: &[u8],
    payload: &[u8],
    limit: Option<u64>,
) -> Result<Option<Ask>, AllocError>
    ensures asks { IfOk result (λ ask. ask ≡ take_of peer.now number.now hop.now stamp.now payload.now limit) }
    ensures memory { OnErr result (CarriesBytes (take_of peer.now number.now hop.now stamp.now payload.now limit)) }
{
    let Some(peer) = parse_peer(peer) else {
        return Ok(None);
    };
    let Some(number) = parse_number(number) else {
        return Ok(None);
    };
    let Some(hop) = parse_hop(hop) else {
        return Ok(None);
    };
    let Some(stamp) = parse_number(stamp) else {
        return Ok(None);
    };
    let Some(limit) = limit else {
        return Ok(None);
    };
    let Some(payload) = parse_payload(alloc, payload)? else {
        return Ok(None);
    };
    Ok(Some(Ask::Command(Command::Take {
        peer,
        number,
        hop,
        stamp,
        limit,
        payload,
    })))
}

/// `HOP NOW`.
fn parse_pick(args: &[u8]) -> Option<Ask>
    ensures { result ≡ pick_in (words_of args.now) }
{
    let (hop, now) = parse_hop_and_number(args)?;
    Some(Ask::Command(Command::Pick { hop, now }))
}

/// `HOP NUMBER`.
fn parse_done(args: &[u8]) -> Option<Ask>
    ensures { result ≡ done_in (words_of args.now) }
{
    let (hop, number) = parse_hop_and_number(args)?;
    Some(Ask::Command(Command::Release { hop, number }))
}

/// `HOP NUMBER`.
fn parse_fetch(args: &[u8]) -> Option<Ask>
    ensures { result ≡ fetch_in (words_of args.now) }
{
    let (hop, number) = parse_hop_and_number(args)?;
    Some(Ask::Query(Query::Fetch { hop, number }))
}

/// `HOP`.
fn parse_window(args: &[u8]) -> Option<Ask>
    ensures { result ≡ window_in (words_of args.now) }
{
    if !is_word(args) {
        return None;
    }
    let hop = parse_hop(args)?;
    Some(Ask::Query(Query::Window { hop }))
}

/// `HOP`.
fn parse_show(args: &[u8]) -> Option<Ask>
    ensures { result ≡ show_in (words_of args.now) }
{
    if !is_word(args) {
        return None;
    }
    let hop = parse_hop(args)?;
    Some(Ask::Query(Query::Show { hop }))
}

/// `HOP NUMBER`, alone.
fn parse_hop_and_number(args: &[u8]) -> Option<(HopId, u64)>
    ensures { result ≡ hop_and_number_in (words_of args.now) }
{
    let (hop, number) = cut(args)?;
    if !is_word(number) {
        return None;
    }
    Some((parse_hop(hop)?, parse_number(number)?))
}

/// The first word of a text and the rest after its space, if it has one.
fn cut(text: &[u8]) -> Option<(&[u8], &[u8])>
    ensures { MatchOption result (words_of text.now ≡ text.now ∷ [])
        (λ parts. words_of text.now ≡ parts.0.now ∷ words_of parts.1.now) }
{
    let at = position_of(text, b' ')?;
    Some((&text[..at], &text[at + 1..]))
}

/// Whether a text is one word.
fn is_word(text: &[u8]) -> bool
    ensures one { result ≡ true → words_of text.now ≡ text.now ∷ [] }
    ensures more { result ≡ false → HasTwo (words_of text.now) }
{
    cut(text).is_none()
}

/// The peer in a word.
fn parse_peer(word: &[u8]) -> Option<PeerId>
    ensures { result ≡ peer_in word.now }
{
    parse_id(word).map(PeerId)
}

/// The hop in a word.
fn parse_hop(word: &[u8]) -> Option<HopId>
    ensures { result ≡ hop_in word.now }
{
    parse_id(word).map(HopId)
}

/// The number of a peer or of a hop.
pub(crate) fn parse_id(word: &[u8]) -> Option<u16>
    ensures { result ≡ id_in word.now }
{
    let number = parse_number(word)?;
    u16::try_from(number).ok()
}

/// A number in decimal, without leading zeros.
pub(crate) fn parse_number(word: &[u8]) -> Option<u64>
    ensures { result ≡ number_in word.now }
{
    if !is_numeral(word) {
        return None;
    }
    let text = str::from_utf8(word).ok()?;
    text.parse::<u64>().ok()
}

/// Whether a word is decimal digits, the first of several not 0.
fn is_numeral(word: &[u8]) -> bool
    ensures { result ≡ is_numeral word.now }
{
    has_digits_alone(word) && !word.is_empty() && (word.len() < 2 || word[0] != b'0')
}

/// Whether each byte of a word is a decimal digit.
fn has_digits_alone(word: &[u8]) -> bool
    ensures { result ≡ list_all is_ascii_digit word.now }
{
    word.iter().all(|byte| byte.is_ascii_digit())
}

/// The payload in a word.
#[tactic(auto, using(crate::proofs::Payloads::has_bytes))]
fn parse_payload(alloc: Global, word: &[u8]) -> Result<Option<Payload>, AllocError>
    ensures payload { IfOk result (λ payload. payload ≡ payload_in word.now) }
    ensures memory { OnErr result (HasBytes (payload_in word.now)) }
{
    if word == b"-".as_slice() {
        return Ok(Some(Payload::new(Vec::new(alloc))));
    }
    if word.is_empty() || !is_hexadecimal(word) {
        return Ok(None);
    }
    let mut bytes = vec![in alloc; 0u8; word.len() / 2]?;
    decode_hexadecimal(word, &mut bytes);
    Ok(Some(Payload::new(bytes)))
}
