ghost use Rattle.std.specs.Prelude.{◌≡◌, ◌++◌, [], codes, OnOk};
ghost use Rattle.prairie_top.specs.Messages.{at_offset, with_name, part_name, condition_name, refusal_name, refusal_text, fault_text};

use crate::stage::Refusal;
use catalog::CatalogPart;
use pr_outside::Name;
use pr_value::{Memory, Symbol, Text};
use rule_types::RefusalKind;
use std::alloc::Global;

/// Makes an empty text that of a refusal.
pub fn push_refusal(
    alloc: Global,
    which: &[u8],
    refusal: Refusal,
    text: &mut Text,
) -> Result<(), Memory>
    requires { text.old ≡ [] }
    ensures { OnOk result (text.new ≡ refusal_text which.now refusal) }
{
    text.push_bytes(b"refused ")?;
    text.push_bytes(which)?;
    text.push_bytes(b" ")?;
    push_kind(alloc, refusal, text)?;
    text.push_bytes(b"\n")?;
    Ok(())
}

fn push_kind(alloc: Global, refusal: Refusal, text: &mut Text) -> Result<(), Memory>
    ensures { OnOk result (text.new ≡ text.old ++ refusal_name refusal) }
{
    match refusal {
        Refusal::TooLong => {
            text.push_bytes(b"TooLong")?;
            Ok(())
        }
        Refusal::BadByte { at } => push_at(alloc, b"BadByte", at, text),
        Refusal::NumberTooBig { at } => push_at(alloc, b"NumberTooBig", at, text),
        Refusal::NameTooLong { at } => push_at(alloc, b"NameTooLong", at, text),
        Refusal::BadSyntax { at } => push_at(alloc, b"BadSyntax", at, text),
        Refusal::TooDeep { at } => push_at(alloc, b"TooDeep", at, text),
        Refusal::NotJson => {
            text.push_bytes(b"NotJson")?;
            Ok(())
        }
        Refusal::BadShape { part } => push_part(part, text),
        Refusal::NotAccepted { kind, name } => push_named(name_of_condition(kind), &name, text),
        Refusal::TooManyNodes => {
            text.push_bytes(b"TooManyNodes -")?;
            Ok(())
        }
        Refusal::UnknownOperator { name } => push_named(b"UnknownOperator", &name, text),
        Refusal::UnknownFile { name } => push_named(b"UnknownFile", &name, text),
        Refusal::Arity { name } => push_named(b"Arity", &name, text),
        Refusal::UnknownProperty { name } => push_named(b"UnknownProperty", &name, text),
        Refusal::WrongType { name } => push_named(b"WrongType", &name, text),
        Refusal::Unbuilt => {
            text.push_bytes(b"Unbuilt")?;
            Ok(())
        }
    }
}

fn push_part(part: CatalogPart, text: &mut Text) -> Result<(), Memory>
    ensures { OnOk result (text.new ≡ text.old ++ codes "BadShape " ++ part_name part) }
{
    text.push_bytes(b"BadShape ")?;
    text.push_bytes(name_of_part(part))?;
    Ok(())
}

fn name_of_part(part: CatalogPart) -> &'static [u8]
    ensures { result.now ≡ part_name part }
{
    match part {
        CatalogPart::Root => b"Root",
        CatalogPart::Files => b"Files",
        CatalogPart::File => b"File",
        CatalogPart::Tables => b"Tables",
        CatalogPart::Row => b"Row",
    }
}

fn push_named(kind: &[u8], name: &Symbol, text: &mut Text) -> Result<(), Memory>
    ensures { OnOk result (text.new ≡ text.old ++ with_name kind.now name.now) }
{
    text.push_bytes(kind)?;
    text.push_bytes(b" ")?;
    text.push_bytes(name.as_slice())?;
    Ok(())
}

fn name_of_condition(kind: RefusalKind) -> &'static [u8]
    ensures { result.now ≡ condition_name kind }
{
    match kind {
        RefusalKind::TooMany => b"TooMany",
        RefusalKind::TwoNames => b"TwoNames",
        RefusalKind::NoCost => b"NoCost",
        RefusalKind::TwoCosts => b"TwoCosts",
        RefusalKind::UnknownName => b"UnknownName",
        RefusalKind::WrongArity => b"WrongArity",
        RefusalKind::HelperCost => b"HelperCost",
        RefusalKind::WrongType => b"WrongType",
        RefusalKind::LeftStreamTwice => b"LeftStreamTwice",
        RefusalKind::StreamOrder => b"StreamOrder",
        RefusalKind::TooManyNodes => b"TooManyNodes",
        RefusalKind::LeftNotFlat => b"LeftNotFlat",
        RefusalKind::CopyPlace => b"CopyPlace",
        RefusalKind::AssignTarget => b"AssignTarget",
        RefusalKind::InputInPost => b"InputInPost",
        RefusalKind::CostAssigned => b"CostAssigned",
        RefusalKind::CostMissing => b"CostMissing",
        RefusalKind::CostRead => b"CostRead",
        RefusalKind::CostForm => b"CostForm",
        RefusalKind::NullForm => b"NullForm",
        RefusalKind::EnforcerLeft => b"EnforcerLeft",
        RefusalKind::EnforcerRoot => b"EnforcerRoot",
        RefusalKind::PhysicalInTRule => b"PhysicalInTRule",
        RefusalKind::InputNotPhysical => b"InputNotPhysical",
    }
}

fn push_at(alloc: Global, kind: &[u8], at: usize, text: &mut Text) -> Result<(), Memory>
    ensures { OnOk result (text.new ≡ text.old ++ at_offset kind.now at) }
{
    let digits = at.to_string(alloc)?;
    text.push_bytes(kind)?;
    text.push_bytes(b" ")?;
    text.push_bytes(digits.as_bytes())?;
    Ok(())
}

/// Makes an empty text that of a fetch that failed.
pub fn push_fault(name: &Name, text: &mut Text) -> Result<(), Memory>
    requires { text.old ≡ [] }
    ensures { OnOk result (text.new ≡ fault_text name.now) }
{
    text.push_bytes(b"read fault ")?;
    text.push_bytes(name.as_str().as_bytes())?;
    text.push_bytes(b"\n")?;
    Ok(())
}
