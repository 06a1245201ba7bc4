//! Code that the programs share: arguments, the way to the root table that they name, and files that are saved.
#![tactic(auto)]

pub mod root;
pub mod save;
pub mod storage;

ghost use Rattle.std.specs.Prelude.{◌≡◌, ◌≢◌, ◌^◌, ◌≤◌, [], IfErr, IfOk, IsOkAnd, drop, map, string_bytes};
ghost use Rattle.acpi_base.specs.FromStd.{is_digit, error_kind, list_all};
ghost use Rattle.acpi_cli.specs.Numbers.{address_of, numeral, revision_of};

use std::alloc::{AllocError, Global};
use std::io::ErrorKind;
use std::{env, io};

/// Whether each character is a digit of a base. A sign is none.
fn are_digits(text: &str, base: u32) -> bool
    requires low { 2 ≤ base }
    requires high { base ≤ 36 }
    ensures { result ≡ list_all (λ c. is_digit c base) text.now }
{
    text.bytes().all(|byte| (byte as char).is_digit(base))
}

/// The number that digits of a base encode, the highest first, or `None` if there are none, more
/// than `most`, or something else among them.
pub fn number_of(digits: &str, base: u32, most: usize) -> Option<u64>
    requires low { 2 ≤ base }
    requires high { base ≤ 36 }
    requires fits { base ^ most ≤ 2 ^ 64 }
    ensures { result ≡ numeral base most digits.now }
{
    if digits.len() > most || !are_digits(digits, base) {
        return None;
    }
    u64::from_str_radix(digits, base).ok()
}

/// The revision that an argument encodes, by one to three decimal digits, or `None` if it is something else
/// or above 255.
pub fn parse_revision(word: &str) -> Option<u8>
    ensures { result ≡ revision_of word.now }
{
    u8::try_from(number_of(word, 10, 3)?).ok()
}

/// The address that an argument encodes, by `0x` and one to sixteen hexadecimal digits of either case, or
/// `None` if it is something else.
pub fn parse_address(word: &str) -> Option<u64>
    ensures { result ≡ address_of word.now }
{
    number_of(word.strip_prefix("0x")?, 16, 16)
}

/// These arguments, or no arguments if the system doesn't return them for another reason than memory, as when one is
/// not valid UTF-8.
///
/// Fails if memory for the arguments runs out.
pub fn args_or_none(alloc: Global, args: io::Result<Vec<String>>) -> io::Result<Vec<String>>
    ensures had { IfOk args (λ t. result ≡ Ok t) }
    // Memory that runs out doesn't make the arguments wrong.
    ensures memory { IfErr args (λ e. error_kind e ≡ ErrorKind.OutOfMemory → result ≡ Err e) }
    ensures other { IfErr args (λ e. error_kind e ≢ ErrorKind.OutOfMemory →
        IsOkAnd result (λ t. t.items ≡ [])) }
{
    match args {
        Err(refusal) if refusal.kind() != ErrorKind::OutOfMemory => Ok(Vec::new(alloc)),
        args => args,
    }
}

/// The arguments without the first, the program's name: all others, in order.
fn after_name(mut args: Vec<String>) -> Vec<String>
    ensures { result.items ≡ drop 1 args.items }
{
    if args.is_empty() {
        return args;
    }
    args.remove(0);
    args
}

/// The process's arguments after the program's name, in order.
///
/// Fails if the system doesn't return them.
fn args_after_name(rt: &HostRuntime) -> io::Result<Vec<String>> {
    let args = env::args(rt)?.collect(rt.alloc())?;
    Ok(after_name(args))
}

/// The process's arguments after the program's name, in order, or no arguments if the system doesn't return them for
/// another reason than memory, as when one is not valid UTF-8.
///
/// Fails if memory for them runs out.
pub fn args(rt: &HostRuntime) -> io::Result<Vec<String>> {
    args_or_none(rt.alloc(), args_after_name(rt))
}

/// Owned texts, borrowed, in order.
///
/// Fails if it runs out of memory.
pub fn borrowed(alloc: Global, texts: &[String]) -> Result<Vec<&str>, AllocError>
    ensures { IfOk result (λ v. map (λ w. w.now) v.items ≡ map string_bytes texts.now) }
{
    let mut borrowed = Vec::new(alloc);
    for text in texts {
        borrowed.push(text.as_str())?;
    }
    Ok(borrowed)
}
