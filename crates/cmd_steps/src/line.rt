//! The lines that refuse texts.
ghost use Rattle.std.specs.Prelude.{◌≡◌, ◌≤◌, ◌<◌, ◌++◌, length, OnOk, IfOk};
ghost use Rattle.machine_shape.specs.Shape.{nodes_of};
ghost use Rattle.cmd_steps.specs.Lines.{file_word, machine_word, faults_word, defects_word, image_word, design_word, vectors_word};
ghost use Rattle.cmd_steps.specs.Lines.{resource_word, design_name, nets_text, text_line, design_line, room_line};

use crate::design_file::DesignFile;
use arrayvec::ArrayString;
use base_text::put_number;
use design_netlist::DesignKind;
use design_vectors::VectorKind;
use itoa::Buffer;
use machine_defects::DefectsKind;
use machine_faults::FaultsKind;
use machine_image::ImageKind;
use machine_shape::Shape;
use machine_text::MachineKind;
use place_plan::{Resource, Short};
use std::alloc::{AllocError, Global};

fn word_of_design(kind: &DesignKind) -> &'static str
    ensures { result.now ≡ design_word kind.now }
{
    match kind {
        DesignKind::Byte => "byte",
        DesignKind::Word => "word",
        DesignKind::Unknown => "unknown",
        DesignKind::NoModel => "nomodel",
        DesignKind::SameModel => "samemodel",
        DesignKind::Row => "row",
        DesignKind::RowMixed => "rowmixed",
        DesignKind::LatchType => "latchtype",
        DesignKind::LatchInit => "latchinit",
        DesignKind::Control => "control",
        DesignKind::Limit => "limit",
        DesignKind::LeftOut => "leftout",
        DesignKind::NoSuchModel { .. } => "nosuchmodel",
        DesignKind::Formal { .. } => "formal",
        DesignKind::Recursive { .. } => "recursive",
        DesignKind::Doubled { .. } => "doubled",
        DesignKind::Undriven { .. } => "undriven",
        DesignKind::Cyclic { .. } => "cyclic",
    }
}

// Puts a blank and the name behind a text, for the kinds that have one.
fn put_name(text: &mut Vec<u8>, kind: &DesignKind) -> Result<(), AllocError>
    ensures { OnOk result (text.new.items ≡ text.old.items ++ design_name kind.now) }
{
    match kind {
        DesignKind::NoSuchModel { name }
        | DesignKind::Formal { name }
        | DesignKind::Recursive { name }
        | DesignKind::Doubled { name }
        | DesignKind::Undriven { name }
        | DesignKind::Cyclic { name } => {
            text.push(b' ')?;
            text.extend_from_slice(name.as_slice())
        }
        _ => Ok(()),
    }
}

fn word_of_file(file: DesignFile) -> &'static str
    ensures { result.now ≡ file_word file }
{
    match file {
        DesignFile::Design => "design",
        DesignFile::First => "first",
        DesignFile::Second => "second",
    }
}

/// The line that refuses a design. A name may have any length.
pub fn design_text(
    alloc: Global,
    file: DesignFile,
    line: u64,
    kind: &DesignKind,
) -> Result<Vec<u8>, AllocError>
    ensures { IfOk result (λ text. text.items ≡ design_line file line kind.now) }
{
    let mut text = Vec::from_slice(alloc, b"refused ")?;
    text.extend_from_slice(word_of_file(file).as_bytes())?;
    text.push(b' ')?;
    put_number(&mut text, line)?;
    text.push(b' ')?;
    text.extend_from_slice(word_of_design(kind).as_bytes())?;
    put_name(&mut text, kind)?;
    text.push(b'\n')?;
    Ok(text)
}

fn word_of_resource(resource: Resource) -> &'static str
    ensures { result.now ≡ resource_word resource }
{
    match resource {
        Resource::Tables => "tables",
        Resource::Pins => "pins",
        Resource::Ports => "ports",
        Resource::Lines => "lines",
    }
}

// Puts the numbers of nets behind a text, each behind a blank.
fn put_nets(text: &mut Vec<u8>, nets: &[u32]) -> Result<(), AllocError>
    ensures { OnOk result (text.new.items ≡ text.old.items ++ nets_text nets.now) }
{
    'nets: for net in nets {
        text.push(b' ')?;
        put_number(text, *net as u64)?;
    }
    Ok(())
}

/// The line that refuses a design for want of room on a machine of this shape.
pub fn room_text(alloc: Global, shape: &Shape, short: &Short) -> Result<Vec<u8>, AllocError>
    requires { short.now.node.0 < nodes_of shape.now }
    ensures { IfOk result (λ text. text.items ≡ room_line shape.now short.now) }
{
    let node = shape.node_name(short.node);
    let mut text = Vec::from_slice(alloc, b"refused noroom ")?;
    text.extend_from_slice(word_of_resource(short.resource).as_bytes())?;
    text.push(b' ')?;
    text.extend_from_slice(node.as_bytes())?;
    text.push(b' ')?;
    put_number(&mut text, short.need)?;
    text.push(b' ')?;
    put_number(&mut text, short.have)?;
    put_nets(&mut text, short.nets.as_slice())?;
    text.push(b'\n')?;
    Ok(text)
}

/// The word for a fault of this kind.
pub fn word_of_vectors(kind: VectorKind) -> &'static str
    ensures word { result.now ≡ vectors_word kind }
    ensures bounded { length result.now ≤ 8 }
{
    match kind {
        VectorKind::Char => "char",
        VectorKind::Width => "width",
        VectorKind::Limit => "limit",
    }
}

/// The word for a fault of this kind.
pub fn word_of_machine(kind: MachineKind) -> &'static str
    ensures word { result.now ≡ machine_word kind }
    ensures bounded { length result.now ≤ 8 }
{
    match kind {
        MachineKind::Byte => "byte",
        MachineKind::Word => "word",
        MachineKind::Order => "order",
        MachineKind::Number => "number",
        MachineKind::Missing => "missing",
        MachineKind::Limit => "limit",
        MachineKind::After => "after",
    }
}

/// The word for a fault of this kind.
pub fn word_of_faults(kind: FaultsKind) -> &'static str
    ensures word { result.now ≡ faults_word kind }
    ensures bounded { length result.now ≤ 8 }
{
    match kind {
        FaultsKind::Byte => "byte",
        FaultsKind::Word => "word",
        FaultsKind::Wire => "wire",
        FaultsKind::Cross => "cross",
        FaultsKind::Cell => "cell",
        FaultsKind::Register => "register",
        FaultsKind::Same => "same",
        FaultsKind::Doubled => "doubled",
        FaultsKind::Against => "against",
        FaultsKind::Limit => "limit",
    }
}

/// The word for a fault of this kind.
pub fn word_of_defects(kind: DefectsKind) -> &'static str
    ensures word { result.now ≡ defects_word kind }
    ensures bounded { length result.now ≤ 8 }
{
    match kind {
        DefectsKind::Word => "word",
        DefectsKind::Order => "order",
        DefectsKind::Name => "name",
        DefectsKind::WrongMachine => "machine",
        DefectsKind::Doubled => "doubled",
        DefectsKind::After => "after",
        DefectsKind::Limit => "limit",
    }
}

/// The word for a fault of this kind.
pub fn word_of_image(kind: ImageKind) -> &'static str
    ensures word { result.now ≡ image_word kind }
    ensures bounded { length result.now ≤ 8 }
{
    match kind {
        ImageKind::Magic => "magic",
        ImageKind::Shape => "shape",
        ImageKind::Range => "range",
        ImageKind::Order => "order",
        ImageKind::Short => "short",
        ImageKind::After => "after",
        ImageKind::Limit => "limit",
    }
}

/// The line that refuses a text: the word for its file, the number of the line (of an image the place of a byte), and the
/// word for what is wrong. Takes no memory.
pub fn text_of(file: &str, line: u64, kind: &str) -> ArrayString<64>
    requires file { length file.now ≤ 8 }
    requires kind { length kind.now ≤ 8 }
    ensures { result.bytes ≡ text_line file.now line kind.now }
{
    let mut text = ArrayString::new();
    let mut digits = Buffer::new();
    text.push_str("refused ");
    text.push_str(file);
    text.push_str(" ");
    text.push_str(digits.format(line));
    text.push_str(" ");
    text.push_str(kind);
    text.push_str("\n");
    text
}
