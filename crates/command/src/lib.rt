// The input of `reel`: what counts of it, its lines, and what a line says.
#![tactic(auto)]

ghost use Rattle.std.specs.Prelude.{◌≡◌, ℕ, ◌<◌, ◌≤◌, ◌↔◌, List, ◌∷◌, length, take, IfSome, IfOk, Some, vec_items, MatchOption, ◌≢◌, nat_lt, slice_index};
ghost use Rattle.std.specs.Option.{option_map};
ghost use Rattle.std.specs.List.{AllByRecursion};
ghost use Rattle.std.specs.Iterator.{item_count};
ghost use Rattle.command.specs.Lines.{Digit, Fields, Says, Cut, Comes, given, value_after, space, line_feed, most};

use std::alloc::{AllocError, Global};
use std::mem;

const MOST: usize = 32768;

// How many bytes of the input count.
pub fn limit() -> usize
    ensures { result ≡ most }
{
    MOST
}

// A line's letter, and its numbers.
#[derive(Drop)]
pub struct Line {
    pub letter: char,
    pub numbers: Vec<u64>,
}

// The first line of a text, and what stands behind its line feed; none where the text has no line feed.
pub fn first_line(text: &[u8]) -> Option<(&[u8], &[u8])>
    ensures { MatchOption result (AllByRecursion (λ c. c ≢ line_feed) text.now) (λ p. Cut text.now p.0.now p.1.now) }
{
    let end = text.iter().position(|byte| *byte == b'\n')?;
    Some((&text[..end], &text[end + 1..]))
}

// The input was cut off in its last line.
#[derive(Clone, Copy, Debug, PartialEq, Eq)]
pub struct CutOff;

// What is left of an input's lines, and whether the input was cut off. Only a line feed ends a line; the last line needs
// none, unless it was cut off.
#[derive(Clone, Debug, Drop)]
pub struct Lines<'a> {
    pub text: &'a [u8],
    pub cut: bool,
}

impl<'a> Lines<'a> {
    // The lines of the bytes of an input that count.
    pub fn new(input: &'a [u8]) -> Lines<'a>
        ensures { (result.text.now ≡ take most input.now) × (result.cut ≡ nat_lt most (length input.now)) }
    {
        let end = input.len().min(MOST);
        Lines {
            text: &input[..end],
            cut: input.len() > MOST,
        }
    }
}

impl<'a> Iterator for Lines<'a> {
    type Item = Result<&'a [u8], CutOff>;

    ghost next_gives = { λ before result after. Comes before.cut before.text.now result after.text.now × (after.cut ≡ before.cut) };

    ghost remaining = { item_count (λ lines. lines.text.now) };

    fn next(&mut self) -> Option<Result<&'a [u8], CutOff>> {
        let text = mem::take(&mut self.text);
        match first_line(text) {
            Some((line, rest)) => {
                self.text = rest;
                Some(Ok(line))
            }
            None if text.is_empty() => None,
            None if self.cut => Some(Err(CutOff)),
            None => Some(Ok(text)),
        }
    }
}

// How many digits lead the text, nine at most.
fn leading_digits(text: &[u8]) -> usize
    ensures within { (result ≤ length text.now) × (result ≤ 9) }
    ensures digits { (k : ℕ) → k < result → Digit (slice_index text.now k) }
    ensures stops { result < length text.now → result < 9 → Digit (slice_index text.now result) → ⊥ }
{
    text.iter()
        .take(9)
        .take_while(|byte| byte.is_ascii_digit())
        .count()
}

// The number that these digits write. Of a `fold` the check leaves `fold-requires-clause-callable` unproved.
fn value(digits: &[u8]) -> u64
    requires short { length digits.now ≤ 9 }
    requires digits { AllByRecursion Digit digits.now }
    ensures { result ≡ value_after 0 digits.now }
{
    let mut value = 0u64;
    for digit in digits {
        value = value * 10 + u64::from(*digit - b'0');
    }
    value
}

// The number that leads the text, and what stands behind it; none where no digit leads.
fn number(text: &[u8]) -> Option<(u64, &[u8])>
    ensures reads { MatchOption result ((ns : List ℕ) → Fields ns (space ∷ text.now) → ⊥) (λ p. (ns : List ℕ) → Fields ns (space ∷ text.now) ↔ ((more : List ℕ) × (ns ≡ p.0 ∷ more) × Fields more p.1.now)) }
    ensures shorter { IfSome result (λ p. length p.1.now ≤ length text.now) }
{
    let (digits, rest) = text.split_at(leading_digits(text));
    if digits.is_empty() {
        return None;
    }
    Some((value(digits), rest))
}

// The numbers of these fields, each with one space before it; none where the fields are anything else.
fn numbers(alloc: Global, fields: &[u8]) -> Result<Option<Vec<u64>>, AllocError>
    ensures { IfOk result (λ o. (ns : List ℕ) → (option_map vec_items o ≡ Some ns) ↔ Fields ns fields.now) }
{
    let mut all = Vec::new(alloc);
    let mut rest = fields;
    while let [b' ', text @ ..] = rest {
        let Some((value, after)) = number(text) else {
            return Ok(None);
        };
        all.push(value)?;
        rest = after;
    }
    Ok(rest.is_empty().then_some(all))
}

// The letter and the numbers of a line; none where the line is not a letter and numbers, each with one space before it.
pub fn parse(alloc: Global, line: &[u8]) -> Result<Option<Line>, AllocError>
    ensures { IfOk result (λ o. (letter : ℕ) (ns : List ℕ) → (given o ≡ Some (letter, ns)) ↔ Says letter ns line.now) }
{
    let [letter, fields @ ..] = line else {
        return Ok(None);
    };
    Ok(numbers(alloc, fields)?.map(|numbers| Line {
        letter: char::from(*letter),
        numbers,
    }))
}
