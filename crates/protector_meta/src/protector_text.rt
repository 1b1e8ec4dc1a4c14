//! The text of a protector's record, written and read.

ghost use Rattle.std.specs.Prelude.{◌≡◌, ◌≢◌, ◌++◌, ◌∷◌, [], IfOk, IfErr, OnOk, Ok, codes, ℕ};
ghost use Rattle.text_words.specs.Numbers.{decimal_of};
ghost use Rattle.protector_meta.specs.ProtectorLines as spec;
ghost use Rattle.protector_meta.specs.ProtectorReading.{after_descriptor, after_name, protector_read};
ghost use Rattle.protector_meta.specs.ProtectorText.{IsKind, IsProtector, IsProtectorRecord};
ghost use Rattle.protector_meta.specs.ProtectorText.{kind_text, protector_text, stretching_text};
ghost use Rattle.protector_meta.specs.RecordLines.{IsFirstBad, NamesFirstBadLine};
ghost use Rattle.protector_meta.specs.Stretching.{IsStretching};

use crate::descriptor::Descriptor;
use crate::fault::MetaFault;
use crate::lines::{ended_line, name_line_value, push_digits_line, push_line, read_digits};
use crate::protector::{Protector, ProtectorKind, Stretching};
use argon_kdf::Costs;
use item_list::Bytes;
use short_bytes::Label;
use std::alloc::{AllocError, Global};
use text_words::{
    decimal_value, lower_hex_bytes, nth_word, push_decimal, push_lower_hex, rest_after, word_count,
};

/// The first line of the record.
const HEAD: &[u8] = b"fsc-protector 1";

/// Returns the text of a protector's record. The types of its fields guarantee all that a record needs,
/// so each protector has one. The only error is out of memory.
pub fn encode_protector(alloc: Global, protector: &Protector) -> Result<Bytes, AllocError>
    ensures text { IfOk result (λ text. text ≡ protector_text protector.now) }
    ensures in_form { OnOk result (IsProtector protector.now) }
{
    let mut text = Vec::new(alloc);
    push_line(&mut text, HEAD, b"")?;
    push_line(&mut text, b"name ", protector.name.bytes())?;
    push_kind(&mut text, &protector.kind)?;
    push_line(&mut text, b"descriptor ", protector.descriptor.bytes())?;
    push_digits_line(&mut text, b"iv ", &protector.iv)?;
    push_digits_line(&mut text, b"key ", &protector.key)?;
    push_digits_line(&mut text, b"tag ", &protector.tag)?;
    Ok(Bytes::from_vec(text))
}

/// Returns the protector whose record the text is. Otherwise returns the first line at fault: one that is
/// not as its place requires, follows the seventh, has no line feed at its end, or is missing. Allocates
/// nothing, so the error is never `NoMemory`.
pub fn decode_protector(text: &[u8]) -> Result<Protector, MetaFault>
    ensures read { result ≡ protector_read text.now }
    ensures found { IfOk result (λ p. IsProtector p × (text.now ≡ protector_text p)) }
    ensures every { (p : Protector) → IsProtector p → text.now ≡ protector_text p → result ≡ Ok p }
    ensures bad { IfErr result (NamesFirstBadLine IsProtectorRecord text.now) }
    ensures only { IfErr result (λ fault. (line : ℕ) → IsFirstBad IsProtectorRecord text.now line
        → fault ≡ MetaFault.Bad line) }
    ensures none { IfErr result (λ _. (p : Protector) → IsProtector p → text.now ≢ protector_text p) }
{
    read_protector(text)
}

// `kind raw`, or `kind pass` with the costs and the salt.
fn push_kind(text: &mut Vec<u8>, kind: &ProtectorKind) -> Result<(), AllocError>
    ensures line { OnOk result (text.new.items ≡ text.old.items ++ (codes "kind " ++ kind_text kind.now)
        ++ 10 ∷ []) }
    ensures in_form { OnOk result (IsKind kind.now) }
{
    match kind {
        ProtectorKind::Raw => push_line(text, b"kind ", b"raw"),
        ProtectorKind::Pass(stretching) => {
            text.extend_from_slice(b"kind pass ")?;
            push_stretching(text, stretching)?;
            push_line(text, b"", b"")
        }
    }
}

// The three costs, and the digits of the salt.
fn push_stretching(text: &mut Vec<u8>, stretching: &Stretching) -> Result<(), AllocError>
    ensures text { OnOk result (text.new.items ≡ text.old.items ++ stretching_text stretching.now) }
    ensures in_form { OnOk result (IsStretching stretching.now) }
{
    let costs = stretching.costs();
    push_number(text, costs.passes)?;
    push_number(text, costs.kib)?;
    push_number(text, costs.lanes)?;
    push_lower_hex(text, stretching.salt())
}

// The number, and a space.
fn push_number(text: &mut Vec<u8>, number: u32) -> Result<(), AllocError>
    ensures { OnOk result (text.new.items ≡ text.old.items ++ (decimal_of number ++ 32 ∷ [])) }
{
    push_decimal(text, u64::from(number))?;
    text.push(b' ')?;
    Ok(())
}

// The value of four words: the three costs, and the digits of the salt.
fn stretching_value(text: &[u8]) -> Option<Stretching>
    ensures { result ≡ spec.stretching_value text.now }
{
    if word_count(text) != 4 {
        return None;
    }
    let passes = number_word(text, 0)?;
    let kib = number_word(text, 1)?;
    let lanes = number_word(text, 2)?;
    let salt = lower_hex_bytes(nth_word(text, 3)?)?;
    let costs = Costs { passes, kib, lanes };
    Stretching::new(costs, salt).ok()
}

fn number_word(text: &[u8], place: usize) -> Option<u32>
    ensures { result ≡ spec.number_word place text.now }
{
    decimal_value(nth_word(text, place)?)
}

fn kind_value(text: &[u8]) -> Option<ProtectorKind>
    ensures { result ≡ spec.kind_value text.now }
{
    if text == b"raw".as_slice() {
        return Some(ProtectorKind::Raw);
    }
    let stretching = stretching_value(rest_after(text, b"pass ")?)?;
    Some(ProtectorKind::Pass(stretching))
}

fn kind_line_value(line: &[u8]) -> Option<ProtectorKind>
    ensures { result ≡ spec.kind_line_value line.now }
{
    kind_value(rest_after(line, b"kind ")?)
}

fn descriptor_line_value(line: &[u8]) -> Option<Descriptor>
    ensures { result ≡ spec.descriptor_line_value line.now }
{
    Descriptor::read(rest_after(line, b"descriptor ")?)
}

// The first line has no value: it is the same in each record.
fn head_value(line: &[u8]) -> Option<()>
    ensures { result ≡ spec.head_value line.now }
{
    if line == HEAD { Some(()) } else { None }
}

// Line by line: the first line that is missing or has no value is at fault.
#[tactic(auto, unfolding(crate::specs::ProtectorReading::protector_read))]
fn read_protector(text: &[u8]) -> Result<Protector, MetaFault>
    ensures { result ≡ protector_read text.now }
{
    let (line, rest) = ended_line(text, 1)?;
    head_value(line).ok_or(MetaFault::Bad { line: 1 })?;
    let (line, rest) = ended_line(rest, 2)?;
    let name = name_line_value(line).ok_or(MetaFault::Bad { line: 2 })?;
    read_behind_name(name, rest)
}

// The protector of this name, and of the lines after the line of the name.
fn read_behind_name(name: Label, text: &[u8]) -> Result<Protector, MetaFault>
    ensures { result ≡ after_name name text.now }
{
    let (line, rest) = ended_line(text, 3)?;
    let kind = kind_line_value(line).ok_or(MetaFault::Bad { line: 3 })?;
    let (line, rest) = ended_line(rest, 4)?;
    let descriptor = descriptor_line_value(line).ok_or(MetaFault::Bad { line: 4 })?;
    read_wrapping(name, kind, descriptor, rest)
}

// The protector of the values on the lines before, and of the last three lines, which say how its secret
// is wrapped.
fn read_wrapping(
    name: Label,
    kind: ProtectorKind,
    descriptor: Descriptor,
    text: &[u8],
) -> Result<Protector, MetaFault>
    ensures { result ≡ after_descriptor name kind descriptor text.now }
{
    let (iv, rest) = read_digits(text, b"iv ", 5)?;
    let (key, rest) = read_digits(rest, b"key ", 6)?;
    let (tag, rest) = read_digits(rest, b"tag ", 7)?;
    if !rest.is_empty() {
        return Err(MetaFault::Bad { line: 8 });
    }
    Ok(Protector {
        name,
        kind,
        descriptor,
        iv,
        key,
        tag,
    })
}
