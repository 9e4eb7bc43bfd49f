//! The values of PARAMETER names (ANSI X3.9-1978 §8.6): an expression may use those before it.
ghost use Rattle.std.specs.Prelude.{◌≡◌, ◌||◌, IfOk, map};
ghost use Rattle.f77_ast.specs.PlainDecl.{decl_tree, setting_tree};
ghost use Rattle.f77_names.specs.declared.lines.Sited.TheVariants.{Decl as AtDecl};
ghost use Rattle.f77_names.specs.Entries.{entry_tree, has_dummy, has_value};
ghost use Rattle.f77_names.specs.Lines.{line_or};
ghost use Rattle.f77_names.specs.Views.{line_in};
ghost use Rattle.f77_checks.specs.Parameters.{decl_valued, decls_valued, given_typed, setting_valued, settings_valued};
ghost use Rattle.f77_checks.specs.Views.{valued_tree};

use crate::expressions::check_expr;
use f77_ast::{Constant, ConstantValue, Decl, Setting, const_value_of};
use f77_names::{Kind, LineTable, NameTable, Names, Sited};
use fx_lists::{Code, List, Refusal, Text, refuse_if};
use std::alloc::AllocError as Memory;

/// A dummy, or a name that has a value.
fn is_taken(names: &Names, name: &Text) -> bool
    ensures { result
        ≡ (has_dummy name.now (map entry_tree names.now) || has_value name.now (map entry_tree names.now)) }
{
    match names.find(name) {
        None => false,
        Some(entry) => entry.dummy.is_some() || entry.value.is_some(),
    }
}

/// A value of this type.
fn give_typed(
    table: &mut NameTable,
    kind: Kind,
    name: &Text,
    value: Constant,
    line: u32,
    found: Option<Refusal>,
) -> Option<Refusal>
    ensures { valued_tree table.new result
        ≡ given_typed kind name.now value line (valued_tree table.old found) }
{
    match (kind, value) {
        (Kind::Int, Constant::Int(_)) | (Kind::Log, Constant::Log(_)) => {
            table.names.set_value(name, value);
            found
        }
        (Kind::Int, Constant::Log(_)) | (Kind::Log, Constant::Int(_)) => {
            refuse_if(true, line, Code::BadParameter, found)
        }
        (Kind::Real, _) => found,
    }
}

fn value_setting(
    table: &mut NameTable,
    setting: &Setting,
    line: u32,
    found: Option<Refusal>,
) -> Option<Refusal>
    ensures { valued_tree table.new result
        ≡ setting_valued (setting_tree setting.now) line (valued_tree table.old found) }
{
    let array = table.names.is_array(&setting.name);
    let found = refuse_if(array, line, Code::NotAnArray, found);
    if is_taken(&table.names, &setting.name) {
        return refuse_if(true, line, Code::BadParameter, found);
    }
    let found = check_expr(table, &setting.value, line, found);
    match const_value_of(&setting.value, &table.names) {
        ConstantValue::Faults | ConstantValue::Varies => refuse_if(
            true,
            line,
            Code::BadParameter,
            found,
        ),
        ConstantValue::Is(value) => {
            let kind = table.kind_of(&setting.name);
            give_typed(table, kind, &setting.name, value, line, found)
        }
    }
}

#[tactic(auto, using(f77_ast::proofs::PlainlyDecl::decl_lists))]
fn value_settings(
    table: &mut NameTable,
    settings: &[Setting],
    line: u32,
    mut found: Option<Refusal>,
) -> Option<Refusal>
    ensures { valued_tree table.new result
        ≡ settings_valued (map setting_tree settings.now) line (valued_tree table.old found) }
{
    for setting in settings {
        found = value_setting(table, setting, line, found);
    }
    found
}

fn value_decl(
    table: &mut NameTable,
    decl: &Decl,
    line: u32,
    found: Option<Refusal>,
) -> Option<Refusal>
    ensures { valued_tree table.new result
        ≡ decl_valued (decl_tree decl.now) line (valued_tree table.old found) }
{
    match decl {
        Decl::Parameter(settings) => value_settings(table, settings.as_slice(), line, found),
        Decl::Implicit(_)
        | Decl::Integer(_)
        | Decl::Logical(_)
        | Decl::Dimension(_)
        | Decl::Common(_)
        | Decl::Equivalence(_)
        | Decl::Save(_)
        | Decl::Data(_) => found,
    }
}

/// The line of a specification statement, by its place from 0; 0 where none is known. Err where the place has more than 32 bits.
pub fn decl_line(lines: &LineTable, place: usize) -> Result<u32, Memory>
    ensures { IfOk result (λ n. n ≡ line_or (line_in lines.now) (AtDecl place) 0) }
{
    match u32::try_from(place) {
        Err(_) => Err(Memory),
        Ok(place) => Ok(lines.line_or(Sited::Decl(place), 0)),
    }
}

/// Gives the PARAMETER names of these statements their values, in the order of the text; the first refusal, also of them. A name
/// that is refused gets no value. Err where there are more than 2^32 statements.
#[tactic(auto, using(f77_ast::proofs::PlainlyDecl::decl_lists))]
pub fn parameters_valued(
    table: &mut NameTable,
    lines: &LineTable,
    decls: &List<Decl>,
    mut found: Option<Refusal>,
) -> Result<Option<Refusal>, Memory>
    ensures { IfOk result
        (λ r. valued_tree table.new r ≡ decls_valued (line_in lines.now) (map decl_tree decls.now) 0 (valued_tree table.old found)) }
{
    for (place, decl) in decls.as_slice().iter().enumerate() {
        let line = decl_line(lines, place)?;
        found = value_decl(table, decl, line, found);
    }
    Ok(found)
}
