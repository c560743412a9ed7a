//! Numbers at a place of bytes, the highest byte first.

ghost use Rattle.std.specs.Prelude.{◌≡◌, ◌≤◌, ◌+◌, length, IfOk, IfErr};
ghost use Rattle.machine_image.specs.declared.kind.ImageKind.TheVariants as kinds;
ghost use Rattle.machine_image.specs.declared.kind.ImageFault.TheVariants.{At};
ghost use Rattle.machine_image.specs.Faults.{Stands};
ghost use Rattle.machine_image.specs.Fields.{IsCut};

use crate::kind::{ImageFault, ImageKind};

/// The bytes end within a field.
fn cut(bytes: &[u8]) -> ImageFault
    ensures { result ≡ At (length bytes.now) kinds.Short }
{
    ImageFault::At {
        line: bytes.len() as u64,
        kind: ImageKind::Short,
    }
}

/// The number in one byte.
pub fn take1(bytes: &[u8], at: usize) -> Result<u8, ImageFault>
    requires { at ≤ length bytes.now }
    ensures found { IfOk result (λ n. Stands 1 n bytes.now at) }
    ensures within { IfOk result (λ n. at + 1 ≤ length bytes.now) }
    ensures refused { IfErr result (IsCut 1 bytes.now at) }
{
    if bytes.len() < at + 1 {
        return Err(cut(bytes));
    }
    Ok(bytes[at])
}

/// The number in two bytes.
pub fn take2(bytes: &[u8], at: usize) -> Result<u16, ImageFault>
    requires { at ≤ length bytes.now }
    ensures found { IfOk result (λ n. Stands 2 n bytes.now at) }
    ensures within { IfOk result (λ n. at + 2 ≤ length bytes.now) }
    ensures refused { IfErr result (IsCut 2 bytes.now at) }
{
    if bytes.len() < at + 2 {
        return Err(cut(bytes));
    }
    Ok(u16::from_be_bytes([bytes[at], bytes[at + 1]]))
}

/// The number in four bytes.
pub fn take4(bytes: &[u8], at: usize) -> Result<u32, ImageFault>
    requires { at ≤ length bytes.now }
    ensures found { IfOk result (λ n. Stands 4 n bytes.now at) }
    ensures within { IfOk result (λ n. at + 4 ≤ length bytes.now) }
    ensures refused { IfErr result (IsCut 4 bytes.now at) }
{
    if bytes.len() < at + 4 {
        return Err(cut(bytes));
    }
    Ok(u32::from_be_bytes([bytes[at], bytes[at + 1], bytes[at + 2], bytes[at + 3]]))
}

/// The number in eight bytes.
pub fn take8(bytes: &[u8], at: usize) -> Result<u64, ImageFault>
    requires { at ≤ length bytes.now }
    ensures found { IfOk result (λ n. Stands 8 n bytes.now at) }
    ensures within { IfOk result (λ n. at + 8 ≤ length bytes.now) }
    ensures refused { IfErr result (IsCut 8 bytes.now at) }
{
    if bytes.len() < at + 8 {
        return Err(cut(bytes));
    }
    Ok(u64::from_be_bytes([
        bytes[at],
        bytes[at + 1],
        bytes[at + 2],
        bytes[at + 3],
        bytes[at + 4],
        bytes[at + 5],
        bytes[at + 6],
        bytes[at + 7],
    ]))
}
