//! Equality of specification statements.
ghost use Rattle.std.specs.Prelude.{◌≡◌, nat_eq, map};
ghost use Rattle.std.specs.Cmp.Lexicographic.{pointwise};
ghost use Rattle.f77_ast.specs.Plain.{expr_tree};
ghost use Rattle.f77_ast.specs.PlainDecl.{decl_tree, extent_tree, entity_tree, setting_tree, common_tree, data_value_tree, data_tree};
ghost use Rattle.same_values.specs.Tests.{expr_test};
ghost use Rattle.same_values.specs.SymbolTests.{scalar_number};
ghost use Rattle.same_values.specs.DeclTests.{implicits_test, extent_test, entity_test, setting_test, common_test, value_test, data_test, decl_test};

use crate::decl_forms::{
    common_of, dimension_of, equivalence_of, implicit_of, initial_of, integer_of, logical_of,
    parameter_of, save_of,
};
use crate::exprs::expr_test;
use crate::parts::{Part, same_parts};
use crate::stmts::{same_maybe, same_number};
use f77_ast::{
    CommonPart, DataGroup, DataValue, Decl, Entity, Expr, Extent, ImplicitPart, SaveItem, Scalar,
    Setting,
};
use fx_lists::List;

fn scalar_number(scalar: Scalar) -> u8
    ensures { result ≡ scalar_number scalar }
{
    match scalar {
        Scalar::Int => 0,
        Scalar::Log => 1,
    }
}

fn same_scalar(a: Scalar, b: Scalar) -> bool
    ensures { result ≡ nat_eq (scalar_number a) (scalar_number b) }
{
    scalar_number(a) == scalar_number(b)
}

impl Part for ImplicitPart {
    ghost use Rattle.same_values.specs.DeclTests.{implicit_test};

    ghost same = { implicit_test };

    fn is_same(&self, other: &ImplicitPart) -> bool {
        same_scalar(self.scalar, other.scalar) && self.ranges == other.ranges
    }
}

impl Part for Expr {
    ghost use Rattle.same_values.specs.Tests.{expr_test};
    ghost use Rattle.f77_ast.specs.Plain.{expr_tree};

    ghost same = { λ a b. expr_test (expr_tree a) (expr_tree b) };

    fn is_same(&self, other: &Expr) -> bool {
        expr_test(self, other)
    }
}

fn same_exprs(a: &List<Expr>, b: &List<Expr>) -> bool
    ensures { result ≡ pointwise expr_test (map expr_tree a.now) (map expr_tree b.now) }
{
    same_parts(a, b)
}

impl Part for Extent {
    ghost use Rattle.same_values.specs.DeclTests.{extent_test};
    ghost use Rattle.f77_ast.specs.PlainDecl.{extent_tree};

    ghost same = { λ a b. extent_test (extent_tree a) (extent_tree b) };

    fn is_same(&self, other: &Extent) -> bool {
        same_maybe(&self.low, &other.low) && same_maybe(&self.high, &other.high)
    }
}

fn same_extents(a: &List<Extent>, b: &List<Extent>) -> bool
    ensures { result ≡ pointwise extent_test (map extent_tree a.now) (map extent_tree b.now) }
{
    same_parts(a, b)
}

impl Part for Entity {
    ghost use Rattle.same_values.specs.DeclTests.{entity_test};
    ghost use Rattle.f77_ast.specs.PlainDecl.{entity_tree};

    ghost same = { λ a b. entity_test (entity_tree a) (entity_tree b) };

    fn is_same(&self, other: &Entity) -> bool {
        self.name == other.name && same_extents(&self.bounds, &other.bounds)
    }
}

fn same_entities(a: &List<Entity>, b: &List<Entity>) -> bool
    ensures { result ≡ pointwise entity_test (map entity_tree a.now) (map entity_tree b.now) }
{
    same_parts(a, b)
}

impl Part for Setting {
    ghost use Rattle.same_values.specs.DeclTests.{setting_test};
    ghost use Rattle.f77_ast.specs.PlainDecl.{setting_tree};

    ghost same = { λ a b. setting_test (setting_tree a) (setting_tree b) };

    fn is_same(&self, other: &Setting) -> bool {
        self.name == other.name && expr_test(&self.value, &other.value)
    }
}

fn same_settings(a: &List<Setting>, b: &List<Setting>) -> bool
    ensures { result ≡ pointwise setting_test (map setting_tree a.now) (map setting_tree b.now) }
{
    same_parts(a, b)
}

impl Part for CommonPart {
    ghost use Rattle.same_values.specs.DeclTests.{common_test};
    ghost use Rattle.f77_ast.specs.PlainDecl.{common_tree};

    ghost same = { λ a b. common_test (common_tree a) (common_tree b) };

    fn is_same(&self, other: &CommonPart) -> bool {
        self.block == other.block && same_entities(&self.members, &other.members)
    }
}

fn same_blocks(a: &List<CommonPart>, b: &List<CommonPart>) -> bool
    ensures { result ≡ pointwise common_test (map common_tree a.now) (map common_tree b.now) }
{
    same_parts(a, b)
}

impl Part for SaveItem {
    ghost use Rattle.same_values.specs.DeclTests.{item_test};

    ghost same = { item_test };

    fn is_same(&self, other: &SaveItem) -> bool {
        match self {
            SaveItem::Name(x) => match other {
                SaveItem::Name(y) => x == y,
                SaveItem::Block(_) => false,
            },
            SaveItem::Block(x) => match other {
                SaveItem::Block(y) => x == y,
                SaveItem::Name(_) => false,
            },
        }
    }
}

impl Part for DataValue {
    ghost use Rattle.same_values.specs.DeclTests.{value_test};
    ghost use Rattle.f77_ast.specs.PlainDecl.{data_value_tree};

    ghost same = { λ a b. value_test (data_value_tree a) (data_value_tree b) };

    fn is_same(&self, other: &DataValue) -> bool {
        same_number(self.repeat, other.repeat) && expr_test(&self.value, &other.value)
    }
}

fn same_values(a: &List<DataValue>, b: &List<DataValue>) -> bool
    ensures { result ≡ pointwise value_test (map data_value_tree a.now) (map data_value_tree b.now) }
{
    same_parts(a, b)
}

impl Part for DataGroup {
    ghost use Rattle.same_values.specs.DeclTests.{data_test};
    ghost use Rattle.f77_ast.specs.PlainDecl.{data_tree};

    ghost same = { λ a b. data_test (data_tree a) (data_tree b) };

    fn is_same(&self, other: &DataGroup) -> bool {
        same_exprs(&self.targets, &other.targets) && same_values(&self.values, &other.values)
    }
}

fn same_groups(a: &List<DataGroup>, b: &List<DataGroup>) -> bool
    ensures { result ≡ pointwise data_test (map data_tree a.now) (map data_tree b.now) }
{
    same_parts(a, b)
}

fn same_implicits(a: &Option<List<ImplicitPart>>, b: &Option<List<ImplicitPart>>) -> bool
    ensures { result ≡ implicits_test a.now b.now }
{
    match a {
        None => match b {
            None => true,
            Some(_) => false,
        },
        Some(one) => match b {
            None => false,
            Some(other) => same_parts(one, other),
        },
    }
}

/// Groups of EQUIVALENCE.
fn same_equivalences(a: &List<List<Expr>>, b: &List<List<Expr>>) -> bool
    ensures { result ≡ pointwise (pointwise expr_test) (map (map expr_tree) a.now) (map (map expr_tree) b.now) }
{
    same_parts(a, b)
}

fn decl_test(a: &Decl, b: &Decl) -> bool
    ensures { result ≡ decl_test (decl_tree a.now) (decl_tree b.now) }
{
    match a {
        Decl::Implicit(x) => match implicit_of(b) {
            Some(y) => same_implicits(x, y),
            None => false,
        },
        Decl::Integer(x) => match integer_of(b) {
            Some(y) => same_entities(x, y),
            None => false,
        },
        Decl::Logical(x) => match logical_of(b) {
            Some(y) => same_entities(x, y),
            None => false,
        },
        Decl::Dimension(x) => match dimension_of(b) {
            Some(y) => same_entities(x, y),
            None => false,
        },
        Decl::Parameter(x) => match parameter_of(b) {
            Some(y) => same_settings(x, y),
            None => false,
        },
        Decl::Common(x) => match common_of(b) {
            Some(y) => same_blocks(x, y),
            None => false,
        },
        Decl::Equivalence(x) => match equivalence_of(b) {
            Some(y) => same_equivalences(x, y),
            None => false,
        },
        Decl::Save(x) => match save_of(b) {
            Some(y) => same_parts(x, y),
            None => false,
        },
        Decl::Data(x) => match initial_of(b) {
            Some(y) => same_groups(x, y),
            None => false,
        },
    }
}

impl Part for Decl {
    ghost use Rattle.same_values.specs.DeclTests.{decl_test};
    ghost use Rattle.f77_ast.specs.PlainDecl.{decl_tree};

    ghost same = { λ a b. decl_test (decl_tree a) (decl_tree b) };

    fn is_same(&self, other: &Decl) -> bool {
        decl_test(self, other)
    }
}

pub fn same_decls(a: &List<Decl>, b: &List<Decl>) -> bool
    ensures { result ≡ pointwise decl_test (map decl_tree a.now) (map decl_tree b.now) }
{
    same_parts(a, b)
}
