//! The fields of an image, each with what is wrong with its number.

ghost use Rattle.std.specs.Prelude.{◌≡◌, ◌≤◌, ◌<◌, length, IfOk, IfErr};
ghost use Rattle.machine_image.specs.declared.kind.ImageKind.TheVariants as kinds;
ghost use Rattle.machine_image.specs.declared.kind.ImageFault.TheVariants.{At};
ghost use Rattle.machine_image.specs.Faults.{magic_fault, count_fault, ticks_fault, most_fault, closed_fault, pin_fault, above_fault};
ghost use Rattle.machine_image.specs.Faults.{flags_fault};
ghost use Rattle.machine_image.specs.Fields.{IsField, IsRefusedField, AreMarks};

use crate::field::{take1, take2, take4, take8};
use crate::kind::{ImageFault, ImageKind};

/// `TERAIMG1`.
pub const MAGIC: u64 = 0x5445_5241_494D_4731;

/// The field at a place has a fault of this kind.
pub fn fault_at(at: usize, kind: ImageKind) -> ImageFault
    ensures { result ≡ At at kind }
{
    ImageFault::At {
        line: at as u64,
        kind,
    }
}

/// The first eight bytes.
pub fn magic(bytes: &[u8], at: usize) -> Result<u64, ImageFault>
    requires { at ≤ length bytes.now }
    ensures found { IfOk result (IsField 8 magic_fault bytes.now at) }
    ensures refused { IfErr result (IsRefusedField 8 magic_fault bytes.now at) }
{
    match take8(bytes, at) {
        Ok(n) if n == MAGIC => Ok(n),
        Ok(_) => Err(fault_at(at, ImageKind::Magic)),
        Err(fault) => Err(fault),
    }
}

/// A count, which is to be this one.
pub fn count(bytes: &[u8], at: usize, due: u16) -> Result<u16, ImageFault>
    requires { at ≤ length bytes.now }
    ensures found { IfOk result (IsField 2 (count_fault due) bytes.now at) }
    ensures refused { IfErr result (IsRefusedField 2 (count_fault due) bytes.now at) }
{
    match take2(bytes, at) {
        Ok(n) if n == due => Ok(n),
        Ok(_) => Err(fault_at(at, ImageKind::Shape)),
        Err(fault) => Err(fault),
    }
}

/// The number of ticks, of which there may be so many.
pub fn ticks(bytes: &[u8], at: usize, most: u16) -> Result<u16, ImageFault>
    requires { at ≤ length bytes.now }
    ensures found { IfOk result (IsField 2 (ticks_fault most) bytes.now at) }
    ensures refused { IfErr result (IsRefusedField 2 (ticks_fault most) bytes.now at) }
{
    match take2(bytes, at) {
        Ok(0) => Err(fault_at(at, ImageKind::Range)),
        Ok(n) if n > most => Err(fault_at(at, ImageKind::Range)),
        Ok(n) => Ok(n),
        Err(fault) => Err(fault),
    }
}

/// The number of switched-on tables.
pub fn how_many_tables(bytes: &[u8], at: usize, tables: u32) -> Result<u16, ImageFault>
    requires { at ≤ length bytes.now }
    ensures found { IfOk result (IsField 2 (most_fault tables) bytes.now at) }
    ensures refused { IfErr result (IsRefusedField 2 (most_fault tables) bytes.now at) }
{
    match take2(bytes, at) {
        Ok(n) if n as u32 > tables => Err(fault_at(at, ImageKind::Range)),
        Ok(n) => Ok(n),
        Err(fault) => Err(fault),
    }
}

/// The number of closed crosspoints, of which there are and may be so many.
pub fn how_many_closed(bytes: &[u8], at: usize, most: u32, crosses: u32) -> Result<u32, ImageFault>
    requires { at ≤ length bytes.now }
    ensures found { IfOk result (IsField 4 (closed_fault most crosses) bytes.now at) }
    ensures refused { IfErr result (IsRefusedField 4 (closed_fault most crosses) bytes.now at) }
{
    match take4(bytes, at) {
        Ok(n) if n > crosses => Err(fault_at(at, ImageKind::Range)),
        Ok(n) if n > most => Err(fault_at(at, ImageKind::Range)),
        Ok(n) => Ok(n),
        Err(fault) => Err(fault),
    }
}

/// A pin. The marks tell which pins stand before.
pub fn pin(bytes: &[u8], at: usize, before: &[u32], marks: &[bool]) -> Result<u16, ImageFault>
    requires within { at ≤ length bytes.now }
    requires marks { AreMarks (length marks.now) before.now marks.now }
    ensures found { IfOk result (IsField 2 (pin_fault (length marks.now) before.now) bytes.now at) }
    ensures refused { IfErr result (IsRefusedField 2 (pin_fault (length marks.now) before.now) bytes.now at) }
{
    let n = match take2(bytes, at) {
        Ok(n) => n,
        Err(fault) => return Err(fault),
    };
    if n as usize >= marks.len() {
        return Err(fault_at(at, ImageKind::Range));
    }
    if marks[n as usize] {
        return Err(fault_at(at, ImageKind::Order));
    }
    Ok(n)
}

/// A table's number, one of so many and at least this one.
pub fn table(bytes: &[u8], at: usize, tables: u32, least: u32) -> Result<u16, ImageFault>
    requires { at ≤ length bytes.now }
    ensures found { IfOk result (IsField 2 (above_fault tables least) bytes.now at) }
    ensures refused { IfErr result (IsRefusedField 2 (above_fault tables least) bytes.now at) }
{
    match take2(bytes, at) {
        Ok(n) if n as u32 >= tables => Err(fault_at(at, ImageKind::Range)),
        Ok(n) if (n as u32) < least => Err(fault_at(at, ImageKind::Order)),
        Ok(n) => Ok(n),
        Err(fault) => Err(fault),
    }
}

/// A table's flags.
pub fn flags(bytes: &[u8], at: usize) -> Result<u8, ImageFault>
    requires { at ≤ length bytes.now }
    ensures found { IfOk result (IsField 1 flags_fault bytes.now at) }
    ensures refused { IfErr result (IsRefusedField 1 flags_fault bytes.now at) }
{
    match take1(bytes, at) {
        Ok(n) if n > 3 => Err(fault_at(at, ImageKind::Range)),
        Ok(n) => Ok(n),
        Err(fault) => Err(fault),
    }
}

/// A crosspoint's number, one of so many and at least this one.
pub fn cross(bytes: &[u8], at: usize, crosses: u32, least: u32) -> Result<u32, ImageFault>
    requires { at ≤ length bytes.now }
    ensures found { IfOk result (IsField 4 (above_fault crosses least) bytes.now at) }
    ensures refused { IfErr result (IsRefusedField 4 (above_fault crosses least) bytes.now at) }
{
    match take4(bytes, at) {
        Ok(n) if n >= crosses => Err(fault_at(at, ImageKind::Range)),
        Ok(n) if n < least => Err(fault_at(at, ImageKind::Order)),
        Ok(n) => Ok(n),
        Err(fault) => Err(fault),
    }
}
