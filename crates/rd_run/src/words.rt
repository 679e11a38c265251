//! The words of the command line.

ghost use Rattle.std.specs.Prelude.{◌≡◌, ◌≤◌, IfOk, IfSome, length, map, option_map, string_bytes, true, false};
ghost use Rattle.rd_run.specs.Words as spec;
ghost use Rattle.rd_run.specs.Words.{words_form};
ghost use Rattle.rd_run.specs.Internal.Limits.{IsWithinLimits};
ghost use Rattle.clap.specs.Words.{app_of, rule_of};

use clap::error::ErrorKind;
use clap::{Arg, ArgAction, Command};
use rd_gen::MAX_EDITS;
use rd_geom::NoMemory;
use rd_tree::MAX_BOXES;
use std::alloc::{AllocError, Global};

/// What the program is asked for.
#[derive(Clone, Copy, Debug, PartialEq, Eq)]
pub enum WordsForm {
    /// To answer the commands of a script, a line or more each.
    Replay,
    /// To do the commands of a script, and to write the picture of what is painted at its end.
    Render,
    /// To do the commands of a script on tiles, and to write a line for each paint, and last the digest of the picture.
    Tiles,
    /// To do the commands of a script, and to write the list of what is painted at its end, in the wire form.
    Wire,
    /// To write the picture of a list in the wire form.
    Compose,
    /// To say whether a dump is one of the painting order at the end of a script, and if not, why not.
    Check,
    /// To do the commands of a generated script, and to write a summary.
    Storm { seed: u64, boxes: u32, edits: u32 },
}

/// Are they all decimal digits?
fn all_digits(text: &[u8]) -> bool
    ensures { result ≡ spec.all_digits text.now }
{
    for c in text {
        if *c < b'0' || b'9' < *c {
            return false;
        }
    }
    true
}

/// The number that at most 20 digits write.
fn number(digits: &[u8]) -> u128
    requires digits { spec.all_digits digits.now ≡ true }
    requires few { length digits.now ≤ 20 }
    ensures { result ≡ spec.number_after 0 digits.now }
{
    let mut number: u128 = 0;
    for c in digits {
        number = number * 10 + u128::from(*c - b'0');
    }
    number
}

/// The number that 1 to 20 digits write, if it is from `least` to `most`.
pub fn number_in(text: &str, least: u64, most: u64) -> Option<u64>
    ensures value { result ≡ spec.number_in least most text.now }
    ensures within { IfSome result (λ n. (least ≤ n) × (n ≤ most)) }
{
    let digits = text.as_bytes();
    if digits.is_empty() || digits.len() > 20 || !all_digits(digits) {
        return None;
    }
    let number = number(digits);
    if u128::from(least) <= number && number <= u128::from(most) {
        Some(number as u64)
    } else {
        None
    }
}

fn storm(seed: &str, boxes: &str, edits: &str) -> Option<WordsForm>
    ensures form { result ≡ spec.storm_of (spec.number_in 0 18446744073709551615 seed.now)
        (spec.number_in 1 20000 boxes.now) (spec.number_in 0 100000 edits.now) }
    ensures limits { IfSome result IsWithinLimits }
{
    let seed = number_in(seed, 0, u64::MAX)?;
    let boxes = number_in(boxes, 1, u64::from(MAX_BOXES))?;
    let edits = number_in(edits, 0, u64::from(MAX_EDITS))?;
    Some(WordsForm::Storm {
        seed,
        boxes: boxes as u32,
        edits: edits as u32,
    })
}

fn plain(mode: &str) -> Option<WordsForm>
    ensures form { result ≡ spec.plain_form mode.now }
    ensures limits { IfSome result IsWithinLimits }
{
    if mode == "replay" {
        Some(WordsForm::Replay)
    } else if mode == "render" {
        Some(WordsForm::Render)
    } else if mode == "tiles" {
        Some(WordsForm::Tiles)
    } else if mode == "wire" {
        Some(WordsForm::Wire)
    } else if mode == "compose" {
        Some(WordsForm::Compose)
    } else if mode == "check" {
        Some(WordsForm::Check)
    } else {
        None
    }
}

/// The form of the values of the mode and of the three options.
fn form(
    mode: Option<&str>,
    seed: Option<&str>,
    boxes: Option<&str>,
    edits: Option<&str>,
) -> Option<WordsForm>
    ensures form { result ≡ spec.form_of (option_map (λ s. s.now) mode.entry) (option_map (λ s. s.now) seed.entry)
        (option_map (λ s. s.now) boxes.entry) (option_map (λ s. s.now) edits.entry) }
    ensures limits { IfSome result IsWithinLimits }
{
    let mode = mode?;
    match (seed, boxes, edits) {
        (None, None, None) => plain(mode),
        (Some(seed), Some(boxes), Some(edits)) => {
            if mode == "storm" {
                storm(seed, boxes, edits)
            } else {
                None
            }
        }
        _ => None,
    }
}

fn option_named(alloc: Global, name: &str) -> Arg<'_>
    ensures rule { rule_of result ≡ spec.option_named name.now }
    ensures local { result.global ≡ false }
{
    Arg::new(alloc, name).long(name).action(ArgAction::Set)
}

/// The command line: one argument, and three options of one value each.
fn command_line<'a>(alloc: Global) -> Result<Command<'a>, AllocError>
    ensures { IfOk result (λ c. app_of c ≡ spec.command_line) }
{
    let mode = Arg::new(alloc, "mode")
        .required(true)
        .action(ArgAction::Set);
    Command::new(alloc, "rd_cli")
        .no_binary_name(true)
        .disable_help_flag(true)
        .disable_version_flag(true)
        .arg(mode)?
        .arg(option_named(alloc, "seed"))?
        .arg(option_named(alloc, "boxes"))?
        .arg(option_named(alloc, "edits"))
}

/// What the words ask for; None where they are of no form.
pub(crate) fn read_words(alloc: Global, words: &[String]) -> Result<Option<WordsForm>, NoMemory>
    ensures form { IfOk result (λ form. form ≡ words_form (map string_bytes words.now)) }
    ensures limits { IfOk result (λ form. IfSome form IsWithinLimits) }
{
    let command = command_line(alloc)?;
    match command.try_get_matches_from(words) {
        Ok(m) => Ok(form(
            m.get_str("mode"),
            m.get_str("seed"),
            m.get_str("boxes"),
            m.get_str("edits"),
        )),
        Err(error) => {
            if error.kind() == ErrorKind::OutOfMemory {
                Err(AllocError)
            } else {
                Ok(None)
            }
        }
    }
}
