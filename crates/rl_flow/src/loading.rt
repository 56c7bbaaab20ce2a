//! Loading the files of a command.
ghost use Rattle.std.specs.Prelude.{◌≡◌, ◌≤◌, ◌+◌, ℕ, List, length, map, All, IfOk, IfErr};
ghost use Rattle.rl_flow.specs.Words.{texts_of};
ghost use Rattle.rl_flow.specs.Asked.{shelf_state, with_limits, IsTextOf, AreTextsOf, AreWithin, GaveAtMost};
ghost use Rattle.rl_flow.specs.Outcome.{IsUnloaded, AreUnloaded};

use crate::refusal::Refusal;
use rl_io::{LoadError, Shelf, load};
use std::alloc::Global;

/// Loads the file of this name, which has this number among the files of the command.
fn load_file<S: Shelf>(
    alloc: Global,
    shelf: &mut S,
    number: u8,
    name: &str,
    limit: u64,
) -> Result<Vec<u8>, Refusal>
    requires few { limit ≤ 67108864 }
    ensures kept { S.contents shelf.new ≡ S.contents shelf.old }
    ensures planned { S.plan shelf.new ≡ S.plan shelf.old }
    ensures later { (n : List ℕ) → S.faults shelf.old n ≤ S.faults shelf.new n }
    ensures grows { S.given shelf.old ≤ S.given shelf.new }
    ensures asked { S.given shelf.new ≤ S.given shelf.old + limit + 1 }
    ensures text { IfOk result (λ text. IsTextOf (S.contents shelf.old) (record { name = name.now; limit = limit }) text.items) }
    ensures cause { IfErr result (IsUnloaded
        (shelf_state (S.contents shelf.old) (S.faults shelf.old) (S.given shelf.old))
        (shelf_state (S.contents shelf.new) (S.faults shelf.new) (S.given shelf.new))
        number (record { name = name.now; limit = limit })) }
{
    match load(alloc, shelf, name, limit) {
        Ok(text) => Ok(text),
        Err(LoadError::Fault) => Err(Refusal::ReadFault(number)),
        Err(LoadError::TooLong) => Err(Refusal::TooLong(number, limit)),
        Err(LoadError::NoMemory) => Err(Refusal::NoMemory),
    }
}

/// Loads the files of these names in order, each of at most its limit in bytes. The first one that can't be read or is
/// too long ends the call.
pub fn load_files<S: Shelf>(
    alloc: Global,
    shelf: &mut S,
    names: &[String],
    limits: &[u64],
) -> Result<Vec<Vec<u8>>, Refusal>
    requires each { length limits.now ≡ length names.now }
    requires few { length names.now ≤ 255 }
    requires small { All (λ l. l ≤ 67108864) limits.now }
    ensures kept { S.contents shelf.new ≡ S.contents shelf.old }
    ensures planned { S.plan shelf.new ≡ S.plan shelf.old }
    ensures later { (n : List ℕ) → S.faults shelf.old n ≤ S.faults shelf.new n }
    ensures grows { S.given shelf.old ≤ S.given shelf.new }
    ensures asked { GaveAtMost
        (shelf_state (S.contents shelf.old) (S.faults shelf.old) (S.given shelf.old))
        (shelf_state (S.contents shelf.new) (S.faults shelf.new) (S.given shelf.new))
        (with_limits (texts_of names.now) limits.now) }
    ensures texts { IfOk result (λ texts. AreTextsOf (S.contents shelf.old) (with_limits (texts_of names.now) limits.now) (map (λ t. t.items) texts.items)) }
    ensures cause { IfErr result (AreUnloaded
        (shelf_state (S.contents shelf.old) (S.faults shelf.old) (S.given shelf.old))
        (shelf_state (S.contents shelf.new) (S.faults shelf.new) (S.given shelf.new))
        (with_limits (texts_of names.now) limits.now)) }
{
    let mut texts = Vec::new(alloc);
    for (place, name) in names.iter().enumerate() {
        let text = load_file(alloc, shelf, place as u8 + 1, name.as_str(), limits[place])?;
        texts.push(text)?;
    }
    Ok(texts)
}
