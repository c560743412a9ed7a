//! The faults that a name stands for.

ghost use Rattle.std.specs.Prelude.{◌≡◌, ◌⊎◌, ◌≤◌, None, IfOk, IfErr, IsErrOf, OnOk};
ghost use Rattle.base_io.specs.Told.{absent, bytes_of};
ghost use Rattle.rig.specs.Names.{number_of_word, generated_of};
ghost use Rattle.rig_simulated.specs.Named.{texts_of, AreNamed, Asks, AsksAtMost, NamesFail};

use base_io::{Store, StoreFail, read_within};
use base_text::read_number;
use machine_bench::bench_faults;
use machine_faults::{FaultSet, FaultsFault, FaultsKind, read_faults};
use machine_shape::Shape;
use rig::AttachFail;
use std::alloc::Global;

/// The number of at most 4,294,967,295 whose numeral the word is.
fn number_of_word(word: &[u8]) -> Option<u32>
    ensures { result ≡ number_of_word word.now }
{
    match read_number(word, u64::from(u32::MAX)) {
        Some(n) => Some(n as u32),
        None => None,
    }
}

/// The number of a name that stands for generated faults.
pub fn generated_of(name: &str) -> Option<u32>
    ensures { result ≡ generated_of name.now }
{
    let bytes = name.as_bytes();
    if bytes.is_empty() {
        return None;
    }
    if bytes[0] != b'@' {
        return None;
    }
    number_of_word(&bytes[1..])
}

/// The faults of a file.
fn faults_of_file<S: Store>(
    alloc: Global,
    store: &mut S,
    shape: &Shape,
    name: &str,
) -> Result<FaultSet, AttachFail>
    ensures shape { IfOk result (λ s. s.shape ≡ shape.now) }
    ensures faults { IfOk result (λ s. AreNamed None shape.now ((S.store_state store.old).contents name.now) s.faults) }
    ensures contents { (S.store_state store.new).contents ≡ (S.store_state store.old).contents }
    ensures later { (S.store_state store.old).failures ≤ (S.store_state store.new).failures }
    ensures asks { OnOk result (Asks None name.now (S.store_state store.old) (S.store_state store.new)) }
    ensures asks_at_most { AsksAtMost None name.now (S.store_state store.old) (S.store_state store.new) }
    ensures refused { IfErr result (λ e. NamesFail e shape.now (bytes_of ((S.store_state store.old).contents name.now))
        (S.store_state store.old) (S.store_state store.new)) }
    ensures missing { (S.store_state store.old).contents name.now ≡ absent → IsErrOf result AttachFail.Failed
        ⊎ IsErrOf result AttachFail.Memory }
{
    let most = shape.most_text() as usize;
    match read_within(alloc, store, name, most) {
        Ok(Some(text)) => match read_faults(alloc, shape, &text) {
            Ok(faults) => Ok(faults),
            Err(FaultsFault::At { line, kind }) => {
                Err(AttachFail::Faults(FaultsFault::At { line, kind }))
            }
            Err(FaultsFault::Memory) => Err(AttachFail::Memory),
        },
        Ok(None) => Err(AttachFail::Faults(FaultsFault::At {
            line: 0,
            kind: FaultsKind::Limit,
        })),
        Err(StoreFail::Failed) => Err(AttachFail::Failed),
        Err(StoreFail::Memory) => Err(AttachFail::Memory),
    }
}

/// The faults that a name stands for.
pub fn faults_of<S: Store>(
    alloc: Global,
    store: &mut S,
    shape: &Shape,
    name: &str,
) -> Result<FaultSet, AttachFail>
    ensures shape { IfOk result (λ s. s.shape ≡ shape.now) }
    ensures faults { IfOk result (λ s. AreNamed (generated_of name.now) shape.now ((S.store_state store.old).contents name.now) s.faults) }
    ensures contents { (S.store_state store.new).contents ≡ (S.store_state store.old).contents }
    ensures later { (S.store_state store.old).failures ≤ (S.store_state store.new).failures }
    ensures asks { OnOk result (Asks (generated_of name.now) name.now (S.store_state store.old) (S.store_state store.new)) }
    ensures asks_at_most { AsksAtMost (generated_of name.now) name.now (S.store_state store.old) (S.store_state store.new) }
    ensures refused { IfErr result (λ e. NamesFail e shape.now (texts_of (S.store_state store.old).contents name.now)
        (S.store_state store.old) (S.store_state store.new)) }
    ensures missing { generated_of name.now ≡ None → (S.store_state store.old).contents name.now ≡ absent →
        IsErrOf result AttachFail.Failed ⊎ IsErrOf result AttachFail.Memory }
{
    match generated_of(name) {
        Some(n) => match bench_faults(alloc, n, shape) {
            Ok(faults) => Ok(faults),
            Err(_) => Err(AttachFail::Memory),
        },
        None => faults_of_file(alloc, store, shape, name),
    }
}
