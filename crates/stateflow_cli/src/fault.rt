//! The names of faults, as they are told.

ghost use Rattle.std.specs.Prelude.{◌≡◌};
ghost use Rattle.stateflow_cli.specs.StatusLines.{lex_name, syntax_name, rule_name, fault_name};

use program_text::ProgramFault;
use py_lexer::LexKind;
use py_tree::{Rule, SyntaxKind};

fn name_of_lexical(kind: LexKind) -> &'static [u8]
    ensures { result.now ≡ lex_name kind }
{
    match kind {
        LexKind::TooLong => b"TooLong",
        LexKind::NotUtf8 => b"NotUtf8",
        LexKind::TabIndent => b"TabIndent",
        LexKind::BadDedent => b"BadDedent",
        LexKind::BadEscape => b"BadEscape",
        LexKind::OpenString => b"OpenString",
        LexKind::BadNumber => b"BadNumber",
        LexKind::LiteralTooWide => b"LiteralTooWide",
        LexKind::BadCharacter => b"BadCharacter",
        LexKind::OpenBracket => b"OpenBracket",
    }
}

fn name_of_syntax(kind: SyntaxKind) -> &'static [u8]
    ensures { result.now ≡ syntax_name kind }
{
    match kind {
        SyntaxKind::Unexpected => b"Unexpected",
        SyntaxKind::LeftOut => b"LeftOut",
        SyntaxKind::TooDeep => b"TooDeep",
    }
}

fn name_of_rule(rule: Rule) -> &'static [u8]
    ensures { result.now ≡ rule_name rule }
{
    match rule {
        Rule::TooMany => b"TooMany",
        Rule::ReservedName => b"ReservedName",
        Rule::DuplicateClass => b"DuplicateClass",
        Rule::DuplicateMember => b"DuplicateMember",
        Rule::MissingAnnotation => b"MissingAnnotation",
        Rule::UnknownType => b"UnknownType",
        Rule::NestedOptional => b"NestedOptional",
        Rule::InitForm => b"InitForm",
        Rule::KeyForm => b"KeyForm",
        Rule::UnknownName => b"UnknownName",
        Rule::Unassigned => b"Unassigned",
        Rule::RemoteField => b"RemoteField",
        Rule::UnknownField => b"UnknownField",
        Rule::NoneUse => b"NoneUse",
        Rule::Operand => b"Operand",
        Rule::UnknownMethod => b"UnknownMethod",
        Rule::ArgCount => b"ArgCount",
        Rule::Mismatch => b"Mismatch",
        Rule::EmptyListType => b"EmptyListType",
        Rule::LocalRetyped => b"LocalRetyped",
        Rule::KeyAssigned => b"KeyAssigned",
        Rule::LoopWord => b"LoopWord",
        Rule::MissingReturn => b"MissingReturn",
    }
}

/// The name of a text's fault.
pub(crate) fn fault_name_of(fault: ProgramFault) -> &'static [u8]
    ensures { result.now ≡ fault_name fault }
{
    match fault {
        ProgramFault::Lex(fault) => name_of_lexical(fault.kind),
        ProgramFault::Syntax(fault) => name_of_syntax(fault.kind),
        ProgramFault::Rule(fault) => name_of_rule(fault.rule),
    }
}
