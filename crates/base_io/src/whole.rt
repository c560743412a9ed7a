//! A file read whole.
ghost use Rattle.std.specs.Prelude.{◌≡◌, ◌+◌, ◌^◌, ◌<◌, ◌≤◌, [], ◌∷◌, ◌++◌, Some, length, take, IfSome, IfOk, IfErr, OnOk};
ghost use Rattle.base_io.specs.Told.{IfTold};
ghost use Rattle.base_io.specs.Whole.{WholeFails, IsWithin, ReadsWithin, read_of};

use crate::{Store, StoreFail};
use std::alloc::Global;

/// How many bytes one read asks the store for at most.
const BLOCK: usize = 65_536;

// Reads a file from its first byte on: all of it, or one byte more than `most`.
fn read_whole<S: Store>(
    alloc: Global,
    store: &mut S,
    name: &str,
    most: usize,
) -> Result<Vec<u8>, StoreFail>
    requires { most < 2 ^ 63 }

    ensures contents { (S.store_state store.new).contents ≡ (S.store_state store.old).contents }
    ensures later { (S.store_state store.old).failures ≤ (S.store_state store.new).failures }
    ensures asked { OnOk result ((S.store_state store.new).asked ≡ (S.store_state store.old).asked ++ name.now ∷ []) }
    ensures place { IfOk result (λ text. (S.store_state store.new).current ≡ Some (record { name = name.now; at = length text.items })) }
    ensures short { IfOk result (λ text. length text.items ≤ most + 1) }
    ensures text { IfOk result (λ text. IfTold ((S.store_state store.old).contents name.now)
        (λ bytes. text.items ≡ take (most + 1) bytes)) }
    ensures within { ReadsWithin most name.now (S.store_state store.old) (S.store_state store.new) }
    ensures refused { IfErr result (λ e. WholeFails e name.now (S.store_state store.old) (S.store_state store.new)) }
{
    let mut text = Vec::new(alloc);
    store.start(name)?;
    let mut block = [0u8; BLOCK];
    while text.len() <= most {
        let room = (most + 1 - text.len()).min(BLOCK);
        let count = store.read(&mut block[..room])?;
        if count == 0 {
            break;
        }
        if text.extend_from_slice(&block[..count]).is_err() {
            return Err(StoreFail::Memory);
        }
    }
    Ok(text)
}

/// Reads a file whole, where it has at most `most` bytes; else it gives `None`, and has read one byte
/// more than `most` and no further.
///
/// After `Failed` the count of the store rose and no file is current. `Memory` may come before the
/// name is asked or after it.
pub fn read_within<S: Store>(
    alloc: Global,
    store: &mut S,
    name: &str,
    most: usize,
) -> Result<Option<Vec<u8>>, StoreFail>
    requires { most < 2 ^ 63 }

    ensures contents { (S.store_state store.new).contents ≡ (S.store_state store.old).contents }
    ensures later { (S.store_state store.old).failures ≤ (S.store_state store.new).failures }
    ensures asked { OnOk result ((S.store_state store.new).asked ≡ (S.store_state store.old).asked ++ name.now ∷ []) }
    ensures place { IfOk result (λ found. (S.store_state store.new).current ≡ Some (record { name = name.now; at = read_of most found })) }
    ensures short { IfOk result (λ found. IfSome found (λ text. length text.items ≤ most)) }
    ensures text { IfOk result (IsWithin most ((S.store_state store.old).contents name.now)) }
    ensures within { ReadsWithin most name.now (S.store_state store.old) (S.store_state store.new) }
    ensures refused { IfErr result (λ e. WholeFails e name.now (S.store_state store.old) (S.store_state store.new)) }
{
    let text = read_whole(alloc, store, name, most)?;
    if text.len() > most {
        return Ok(None);
    }
    Ok(Some(text))
}
