//! Equality of modules.
ghost use Rattle.std.specs.Prelude.{◌≡◌, ◌↔◌, IsTrue};
ghost use Rattle.f77_ast.specs.PlainDecl.{module_tree};
ghost use Rattle.same_values.specs.DeclTests.{form_number, function_test, heading_test, module_test};

use crate::decls::same_decls;
use crate::exprs::same_bool;
use crate::stmts::stmts_test;
use f77_ast::{FunctionForm, Module};

fn form_number(form: FunctionForm) -> u8
    ensures { result ≡ form_number form }
{
    match form {
        FunctionForm::Plain => 0,
        FunctionForm::Integer => 1,
        FunctionForm::Logical => 2,
    }
}

fn function_test(a: Option<FunctionForm>, b: Option<FunctionForm>) -> bool
    ensures { result ≡ function_test a b }
{
    match a {
        None => match b {
            None => true,
            Some(_) => false,
        },
        Some(one) => match b {
            None => false,
            Some(other) => form_number(one) == form_number(other),
        },
    }
}

fn heading_test(a: &Module, b: &Module) -> bool
    ensures { result ≡ heading_test (module_tree a.now) (module_tree b.now) }
{
    a.name == b.name
        && same_bool(a.main, b.main)
        && same_bool(a.titled, b.titled)
        && a.dummies == b.dummies
        && function_test(a.function, b.function)
}

fn module_test(a: &Module, b: &Module) -> bool
    ensures { result ≡ module_test (module_tree a.now) (module_tree b.now) }
{
    heading_test(a, b)
        && same_decls(&a.decls, &b.decls)
        && stmts_test(&a.body, &b.body)
        && a.references == b.references
        && a.whiles == b.whiles
}

/// Whether two modules have the same statements; they may be on other lines and have other comments. Takes no memory.
pub fn same_module(a: &Module, b: &Module) -> bool
    ensures { IsTrue result ↔ (module_tree a.now ≡ module_tree b.now) }
{
    module_test(a, b)
}
