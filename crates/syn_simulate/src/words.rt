//! The words of a line, and what a single word says.
ghost use Rattle.std.specs.Prelude.{◌≡◌, ◌≢◌, ℕ, IfOk, IfSome, IfNone, map};
ghost use Rattle.std.specs.List.{join_with_byte};
ghost use Rattle.syn_simulate.specs.Words.{IsNumber, leaves_word, machine_word, side_word};
ghost use Rattle.syn_simulate.specs.Words.{words_of as words_in};
ghost use Rattle.syn_world.specs.declared.machine.Machine.{Machine as Where};
ghost use Rattle.syn_disk.specs.declared.simulated.leaves.Leaves.{Leaves as Mode};
ghost use Rattle.syn_path.specs.declared.side.Side.{Side as Which};

use std::alloc::{AllocError, Global};
use syn_disk::Leaves;
use syn_path::Side;
use syn_world::Machine;

/// The words of a line.
pub(crate) fn words_of(alloc: Global, line: &str) -> Result<Vec<&str>, AllocError>
    ensures { IfOk result (λ words. map (λ word. word.now) words.items ≡ words_in line.now) }
{
    line.split(' ').collect(alloc)
}

/// The bytes of the words, with a space between each two.
pub(crate) fn joined(alloc: Global, words: &[&str]) -> Result<Vec<u8>, AllocError>
    ensures { IfOk result (λ bytes. bytes.items
        ≡ join_with_byte 32 (map (λ word. word.now) words.now)) }
{
    let mut bytes = Vec::new(alloc);
    let [first, others @ ..] = words else {
        return Ok(bytes);
    };
    bytes.extend_from_slice(first.as_bytes())?;
    for word in others {
        bytes.push(b' ')?;
        bytes.extend_from_slice(word.as_bytes())?;
    }
    Ok(bytes)
}

pub(crate) fn side(word: &str) -> Option<Side>
    ensures some { IfSome result (λ side. word.now ≡ side_word side) }
    ensures none { IfNone result ((side : Which) → word.now ≢ side_word side) }
{
    match word {
        "left" => Some(Side::Left),
        "right" => Some(Side::Right),
        _ => None,
    }
}

pub(crate) fn machine(word: &str) -> Option<Machine>
    ensures some { IfSome result (λ m. word.now ≡ machine_word m) }
    ensures none { IfNone result ((m : Where) → word.now ≢ machine_word m) }
{
    match word {
        "left" => Some(Machine::Side(Side::Left)),
        "right" => Some(Machine::Side(Side::Right)),
        "coordinator" => Some(Machine::Coordinator),
        _ => None,
    }
}

/// What a stop leaves, by its word.
pub(crate) fn leaves(word: &str) -> Option<Leaves>
    ensures some { IfSome result (λ leaves. word.now ≡ leaves_word leaves) }
    ensures none { IfNone result ((leaves : Mode) → word.now ≢ leaves_word leaves) }
{
    match word {
        "lose" => Some(Leaves::Lose),
        "keep" => Some(Leaves::Keep),
        "noise" => Some(Leaves::Noise),
        _ => None,
    }
}

/// The decimal number below 2^64 that the word writes, in digits alone.
pub(crate) fn number(word: &str) -> Option<u64>
    ensures some { IfSome result (λ n. IsNumber 64 word.now n) }
    ensures none { IfNone result ((n : ℕ) → ¬ IsNumber 64 word.now n) }
{
    if word.starts_with('+') {
        return None;
    }
    word.parse::<u64>().ok()
}

/// The decimal number below 2^32 that the word writes, in digits alone.
pub(crate) fn user(word: &str) -> Option<u32>
    ensures some { IfSome result (λ n. IsNumber 32 word.now n) }
    ensures none { IfNone result ((n : ℕ) → ¬ IsNumber 32 word.now n) }
{
    if word.starts_with('+') {
        return None;
    }
    word.parse::<u32>().ok()
}
