ghost use Rattle.std.specs.Prelude.{◌≡◌, ◌≤◌, ◌<◌, ◌+◌, ℕ, List, length, IfOk, IsErrOf, vec_len};
ghost use Rattle.rl_io.specs.Causes.{Rose, RoseBy};
ghost use Rattle.rl_io.specs.Files.{OnFile};

use crate::shelf::{Fetched, Shelf};
use std::alloc::{AllocError, Global};

/// The largest limit on the length of a file, in bytes.
pub const LARGEST_LIMIT: u64 = 67_108_864;

// The most bytes that one fetch is asked for.
const PIECE: usize = 1_048_576;

/// Why a file was not read.
#[derive(Clone, Copy, Debug, PartialEq, Eq)]
pub enum LoadError {
    /// A fetch failed.
    Fault,
    /// The file has more bytes than the limit.
    TooLong,
    /// Memory ran out.
    NoMemory,
}

impl From<AllocError> for LoadError {
    ghost use Rattle.std.specs.Prelude.{◌≡◌};
    ghost use Rattle.rl_io.specs.declared.loading.LoadError.TheVariants.{NoMemory};

    ghost from_gives = { λ _ e. e ≡ NoMemory };

    fn from(_: AllocError) -> Self {
        LoadError::NoMemory
    }
}

// A buffer of n bytes. (The caller's proof sees only its length, and no list of that many zeros.)
fn zeros(alloc: Global, n: usize) -> Result<Vec<u8>, AllocError>
    ensures { IfOk result (λ v. vec_len v ≡ n) }
{
    Vec::from_elem(alloc, 0, n)
}

/// Reads the whole file of this name. `TooLong` where it has more than `limit` bytes; `limit` is at most 67,108,864.
///
/// It asks for large pieces, and for no more than one byte past the limit. The first fetch that fails ends the call
/// with `Fault`.
pub fn load<S: Shelf>(
    alloc: Global,
    shelf: &mut S,
    name: &str,
    limit: u64,
) -> Result<Vec<u8>, LoadError>
    requires { limit ≤ LARGEST_LIMIT }

    // What the call leaves.
    ensures kept { S.contents shelf.new ≡ S.contents shelf.old }
    ensures planned { S.plan shelf.new ≡ S.plan shelf.old }
    ensures later { (n : List ℕ) → S.faults shelf.old n ≤ S.faults shelf.new n }
    ensures given { S.given shelf.old ≤ S.given shelf.new }
    ensures asked { S.given shelf.new ≤ S.given shelf.old + limit + 1 }

    // A known file that is longer than the limit never gives Ok, and every error but out of memory has its cause.
    ensures whole { IfOk result (λ text. (length text.items ≤ limit)
        × OnFile (S.contents shelf.old) name.now (λ file. file ≡ text.items)) }
    ensures fault { IsErrOf result LoadError.Fault
        → Rose (S.faults shelf.old name.now) (S.faults shelf.new name.now) }
    ensures too_long { IsErrOf result LoadError.TooLong
        → OnFile (S.contents shelf.old) name.now (λ file. limit < length file) }
    ensures too_much { IsErrOf result LoadError.TooLong → RoseBy limit (S.given shelf.old) (S.given shelf.new) }
{
    let mut piece = zeros(alloc, PIECE)?;
    let mut text = Vec::new(alloc);
    let most = limit as usize;
    while text.len() <= most {
        let want = PIECE.min(most + 1 - text.len());
        let buf = &mut piece[..want];
        match shelf.fetch(name, text.len() as u64, buf) {
            Fetched::Got(n) => text.extend_from_slice(&buf[..n])?,
            Fetched::End => return Ok(text),
            Fetched::Failed => return Err(LoadError::Fault),
        }
    }
    Err(LoadError::TooLong)
}
