//! The parts of a resource descriptor, or of what is beside an object's name, by a text of lines.
//!
//! A text is blocks of lines. `= CODE LEAST MORE NAME` begins the block of a number, or of a range of numbers, for what
//! takes LEAST bytes at least. MORE is the number of another block, `-` if there is none: its name comes after NAME,
//! and its lines in place of `~`, or else after all others. The block of 0x..ff stands in for those that aren't there.
//!
//! A line is a part: `NAME KIND PLACE REST`. PLACE is a sum of numbers and of places `OFFSET:LENGTH`, as in layouts.
//!
//! - `hex PLACE`, `dec PLACE`: a number.
//! - `byte PLACE`: the byte at that offset.
//! - `bits PLACE`: which bits of a number are set.
//! - `word PLACE LOW HIGH A|B|..`: the word of the number that is in bits of a number, or else that number. What ASL
//!   takes if nothing is written begins with `-`.
//! - `code PLACE CODE WORD|..`: the word of a number, or else that number.
//! - `list PLACE END WIDTH`: the numbers of WIDTH bytes each between two offsets.
//! - `text PLACE`: the text from an offset on, up to a zero.
//! - `bytes PLACE END`: the bytes between two offsets, up to the end if END is `*`.
//!
//! After these come the words of a line, in which `%` is the value. If there are none, they are `NAME %`, or the word
//! alone. Parts have commas between them, but before words that begin with `+`. What has no letters or bytes, a word
//! after `-`, and a number 0 whose KIND ends with `?` has no words in a line.

use crate::fields::{bits_of, name_of, print_hex};
use crate::language::{cut_at, next_word, number_at, number_of, range_of, size, sum_of};
use crate::out::Out;

/// The value of a part.
#[derive(Clone, Copy)]
pub enum Content<'a> {
    /// A number that is shown in hexadecimal digits.
    Hex(u64),
    /// A number that is shown in decimal digits.
    Decimal(u64),
    /// A number, of which the bits that are set are meant.
    Bits(u64),
    Word(&'static str),
    /// Numbers of this many bytes each.
    Numbers(&'a [u8], usize),
    Text(&'a [u8]),
    Bytes(&'a [u8]),
}

/// A part: its name, its value, whether a line has it, and the words of that.
#[derive(Clone, Copy)]
pub struct Part<'a> {
    pub name: &'static str,
    pub content: Content<'a>,
    is_shown: bool,
    words: &'static str,
}

/// What bytes are: the two halves of its name, and the lines of its parts, one text after the other.
#[derive(Clone, Copy)]
pub struct Form {
    pub name: (&'static str, &'static str),
    pub lines: [&'static str; 3],
}

/// The block of a number: how many bytes it takes, what is after that in its head, and its lines.
fn block_of(code: u64, blocks: &'static str) -> Option<(u64, &'static str, &'static str)> {
    for block in blocks.split('=') {
        let (head, lines) = cut_at(block, '\n');
        let (word, head) = next_word(head);
        if let Some((first, last)) = range_of(word)
            && first <= code
            && code <= last
        {
            let (least, head) = next_word(head);
            return Some((number_of(least)?, head, lines));
        }
    }
    None
}

/// The block of a number for bytes, if they are enough for it.
fn block_for(
    code: u64,
    blocks: &'static str,
    bytes: &[u8],
) -> Option<(&'static str, &'static str)> {
    match block_of(code, blocks) {
        Some((least, head, lines)) if least <= bytes.len() as u64 => Some((head, lines)),
        _ => None,
    }
}

/// What bytes of a number are, if a block has it and they are enough.
pub fn form_of(code: u64, blocks: &'static str, bytes: &[u8]) -> Option<Form> {
    let (head, lines) = block_for(code, blocks, bytes)?;
    let (more, name) = next_word(head);
    let (front, back) = cut_at(lines, '~');
    let Ok(code) = sum_of(more, bytes) else {
        return Some(Form {
            name: (name, ""),
            lines: [front, "", back],
        });
    };
    let (head, lines) = match block_for(code, blocks, bytes) {
        Some(other) => other,
        None => block_for(code | 0xff, blocks, bytes)?,
    };
    let (_, more) = next_word(head);
    Some(Form {
        name: (name, more),
        lines: [front, lines, back],
    })
}

/// The part of bytes that a line has.
pub fn part_of<'a>(line: &'static str, bytes: &'a [u8]) -> Option<Part<'a>> {
    let (name, rest) = next_word(line);
    let (kind, rest) = next_word(rest);
    let (place, rest) = next_word(rest);
    let number = sum_of(place, bytes).ok()?;
    let (content, words) = match kind {
        "hex" | "hex?" => (Content::Hex(number), rest),
        "dec" | "dec?" => (Content::Decimal(number), rest),
        "byte?" => (Content::Decimal(number_at(bytes, size(number), 1)), rest),
        "bits" => (Content::Bits(number), rest),
        "word" | "word?" => (word_in(number, rest)?, ""),
        "code" => (word_or(name_of(number, rest), number), ""),
        _ => list_in(kind, size(number), rest, bytes)?,
    };
    let (content, is_shown) = match content {
        Content::Hex(0) | Content::Decimal(0) => (content, !kind.ends_with('?')),
        Content::Word(word) => match word.strip_prefix('-') {
            Some(word) => (Content::Word(word), false),
            None => (content, true),
        },
        Content::Numbers(list, _) | Content::Text(list) | Content::Bytes(list) => (
            content,
            !list.is_empty(),
        ),
        _ => (content, true),
    };
    Some(Part {
        name,
        content,
        is_shown,
        words,
    })
}

/// The word that bits of a number have, by the rest of a line.
fn word_in<'a>(number: u64, rest: &'static str) -> Option<Content<'a>> {
    let (low, rest) = next_word(rest);
    let (high, words) = next_word(rest);
    let part = bits_of(number, number_of(low)?, number_of(high)?);
    let word = words.split('|').nth(size(part)).unwrap_or("");
    Some(word_or(word, part))
}

/// A word, or a number if it has no letters.
fn word_or<'a>(word: &'static str, number: u64) -> Content<'a> {
    if word.is_empty() {
        Content::Decimal(number)
    } else {
        Content::Word(word)
    }
}

/// What bytes have from an offset on, by the rest of a line, and the words after that.
fn list_in<'a>(
    kind: &str,
    start: usize,
    rest: &'static str,
    bytes: &'a [u8],
) -> Option<(Content<'a>, &'static str)> {
    let tail = bytes.get(start..).unwrap_or(&[]);
    if kind == "text" {
        let length = tail.iter().take_while(|letter| **letter != 0).count();
        return Some((Content::Text(tail.get(..length)?), rest));
    }
    let (end, rest) = next_word(rest);
    let end = match sum_of(end, bytes) {
        Ok(end) => size(end).min(bytes.len()),
        Err(_) => bytes.len(),
    };
    let found = bytes.get(start..end).unwrap_or(&[]);
    if kind == "bytes" {
        return Some((Content::Bytes(found), rest));
    }
    let (width, rest) = next_word(rest);
    Some((Content::Numbers(found, size(number_of(width)?)), rest))
}

/// Prints a value.
fn print_content(content: Content<'_>, out: &mut Out) {
    match content {
        Content::Hex(number) => out.words("#", &[number]),
        Content::Decimal(number) => out.words("%", &[number]),
        Content::Bits(bits) => print_bits(bits, out),
        Content::Word(word) => out.text(word),
        Content::Numbers(list, width) => print_numbers(list, width, out),
        Content::Text(text) => out.escaped(text),
        Content::Bytes(bytes) => print_hex(bytes, out),
    }
}

/// Prints the numbers of the bits that are set, with a blank between them.
fn print_bits(bits: u64, out: &mut Out) {
    let mut is_first = true;
    for bit in 0..64_u32 {
        if (bits >> bit) & 1 != 0 {
            out.text(if is_first { "" } else { " " });
            write!(out, "{bit}");
            is_first = false;
        }
    }
}

/// Prints numbers of so many bytes each, with a blank between them.
fn print_numbers(list: &[u8], width: usize, out: &mut Out) {
    for (index, number) in list.chunks(width.max(1)).enumerate() {
        out.text(if index == 0 { "" } else { " " });
        out.words("%", &[number_at(number, 0, number.len())]);
    }
}

/// Prints a part that a line has, after a separator.
fn print_part(part: &Part<'_>, separator: &str, out: &mut Out) {
    let (separator, words) = match part.words.strip_prefix('+') {
        Some(words) => (" ", words),
        None => (separator, part.words),
    };
    out.text(separator);
    let (before, after) = cut_at(words, '%');
    out.text(before);
    if words.is_empty() && !matches!(part.content, Content::Word(_)) {
        out.fill("$ ", &[part.name]);
    }
    print_content(part.content, out);
    out.text(after)
}

/// Prints what bytes are: its name and its parts.
pub(super) fn print_form(form: &Form, bytes: &[u8], out: &mut Out) {
    let (name, more) = form.name;
    out.fill("$$", &[name, more]);
    let start = if name.is_empty() && more.is_empty() {
        ""
    } else {
        " "
    };
    let mut is_first = true;
    for lines in form.lines {
        for line in lines.split('\n') {
            if let Some(part) = part_of(line, bytes)
                && part.is_shown
            {
                print_part(&part, if is_first { start } else { ", " }, out);
                is_first = false;
            }
        }
    }
}
