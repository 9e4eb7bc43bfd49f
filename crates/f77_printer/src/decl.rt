//! The text of specification statements.
ghost use Rattle.std.specs.Prelude.{◌≡◌, ◌++◌, OnOk, map};
ghost use Rattle.f77_ast.specs.DeclTrees.{equivalence};
ghost use Rattle.f77_ast.specs.Plain.{expr_tree};
ghost use Rattle.f77_ast.specs.PlainStmt.{maybe_tree};
ghost use Rattle.f77_ast.specs.PlainDecl.{extent_tree, entity_tree, setting_tree, common_tree, data_value_tree, data_tree, decl_tree};
ghost use Rattle.f77_printer.specs.DeclText.{joined_by, low_text, high_text, extent_text, bounds_text, entity_text, letters_text, scalar_text, part_text, implicit_text, settings_text, setting_text, block_text, common_text, commons_text, group_text, save_item_text, save_text, repeat_text, data_value_text, data_group_text, data_text, decl_text};
ghost use Rattle.f77_printer.specs.ExprText.{expr_text};

use crate::expr::write_expr;
use f77_ast::{
    CommonPart, DataGroup, DataValue, Decl, Entity, Expr, Extent, ImplicitPart, Letters, SaveItem,
    Scalar, Setting,
};
use fx_lists::{List, Text};
use std::alloc::{AllocError as Memory, Global};

#[tactic(auto, using(crate::proofs::TextLemmas::char_steps))]
fn write_low(alloc: Global, out: &mut Text, low: &Option<Expr>) -> Result<(), Memory>
    ensures { OnOk result (out.new ≡ out.old ++ low_text (maybe_tree low.now)) }
{
    match low {
        None => Ok(()),
        Some(e) => {
            write_expr(alloc, out, e)?;
            out.append(b":")
        }
    }
}

#[tactic(auto, using(crate::proofs::TextLemmas::char_steps))]
fn write_high(alloc: Global, out: &mut Text, high: &Option<Expr>) -> Result<(), Memory>
    ensures { OnOk result (out.new ≡ out.old ++ high_text (maybe_tree high.now)) }
{
    match high {
        None => out.append(b"*"),
        Some(e) => write_expr(alloc, out, e),
    }
}

/// An item of a list in a specification statement; `text` is what is written of it.
pub trait Written {
    ghost use Rattle.std.specs.Prelude.{List, ℕ};

    ghost text: { Self → List ℕ };

    /// Appends the text.
    fn write(&self, alloc: Global, out: &mut Text) -> Result<(), Memory>
        ensures { OnOk result (out.new ≡ out.old ++ text self.now) };
}

/// Appends the texts of items, joined by commas.
pub fn write_joined<T: Written>(
    alloc: Global,
    out: &mut Text,
    parts: &List<T>,
) -> Result<(), Memory>
    ensures { OnOk result (out.new ≡ out.old ++ joined_by T.text parts.now) }
{
    write_row(alloc, out, parts.as_slice())
}

/// Appends the texts of items, joined by commas.
#[tactic(auto, using(crate::proofs::TextLemmas::joined_steps))]
pub fn write_row<T: Written>(alloc: Global, out: &mut Text, parts: &[T]) -> Result<(), Memory>
    ensures { OnOk result (out.new ≡ out.old ++ joined_by T.text parts.now) }
{
    let mut is_first = true;
    for part in parts {
        if !is_first {
            out.append(b",")?;
        }
        is_first = false;
        part.write(alloc, out)?;
    }
    Ok(())
}

impl Written for Expr {
    ghost use Rattle.f77_ast.specs.Plain.{expr_tree};
    ghost use Rattle.f77_printer.specs.ExprText.{expr_text};

    ghost text = { λ e. expr_text (expr_tree e) };

    fn write(&self, alloc: Global, out: &mut Text) -> Result<(), Memory> {
        write_expr(alloc, out, self)
    }
}

impl Written for Extent {
    ghost use Rattle.f77_ast.specs.PlainDecl.{extent_tree};
    ghost use Rattle.f77_printer.specs.DeclText.{extent_text};

    ghost text = { λ x. extent_text (extent_tree x) };

    #[tactic(auto, using(crate::proofs::TextLemmas::char_steps))]
    fn write(&self, alloc: Global, out: &mut Text) -> Result<(), Memory> {
        write_low(alloc, out, &self.low)?;
        write_high(alloc, out, &self.high)
    }
}

#[tactic(auto, using(crate::proofs::TextLemmas::bound_steps))]
fn write_bounds(alloc: Global, out: &mut Text, bounds: &List<Extent>) -> Result<(), Memory>
    ensures { OnOk result (out.new ≡ out.old ++ bounds_text (map extent_tree bounds.now)) }
{
    if bounds.is_empty() {
        return Ok(());
    }
    out.append(b"(")?;
    write_joined(alloc, out, bounds)?;
    out.append(b")")
}

impl Written for Entity {
    ghost use Rattle.f77_ast.specs.PlainDecl.{entity_tree};
    ghost use Rattle.f77_printer.specs.DeclText.{entity_text};

    ghost text = { λ e. entity_text (entity_tree e) };

    #[tactic(auto, using(crate::proofs::TextLemmas::char_steps))]
    fn write(&self, alloc: Global, out: &mut Text) -> Result<(), Memory> {
        out.append(self.name.as_slice())?;
        write_bounds(alloc, out, &self.bounds)
    }
}

impl Written for Letters {
    ghost use Rattle.f77_printer.specs.DeclText.{letters_text};

    ghost text = { letters_text };

    #[tactic(auto, using(crate::proofs::TextLemmas::char_steps))]
    fn write(&self, _alloc: Global, out: &mut Text) -> Result<(), Memory> {
        out.push(self.first)?;
        if self.first == self.last {
            return Ok(());
        }
        out.push(b'-')?;
        out.push(self.last)
    }
}

fn scalar_bytes(scalar: Scalar) -> &'static [u8]
    ensures { result.now ≡ scalar_text scalar }
{
    match scalar {
        Scalar::Int => b"INTEGER",
        Scalar::Log => b"LOGICAL",
    }
}

impl Written for ImplicitPart {
    ghost use Rattle.f77_printer.specs.DeclText.{part_text};

    ghost text = { part_text };

    #[tactic(auto, using(crate::proofs::TextLemmas::char_steps))]
    fn write(&self, alloc: Global, out: &mut Text) -> Result<(), Memory> {
        out.append(scalar_bytes(self.scalar))?;
        out.append(b"(")?;
        write_joined(alloc, out, &self.ranges)?;
        out.append(b")")
    }
}

#[tactic(auto, using(crate::proofs::TextLemmas::char_steps))]
fn write_implicit(
    alloc: Global,
    out: &mut Text,
    parts: &Option<List<ImplicitPart>>,
) -> Result<(), Memory>
    ensures { OnOk result (out.new ≡ out.old ++ implicit_text parts.now) }
{
    match parts {
        None => out.append(b"IMPLICIT NONE"),
        Some(parts) => {
            out.append(b"IMPLICIT ")?;
            write_joined(alloc, out, parts)
        }
    }
}

impl Written for Setting {
    ghost use Rattle.f77_ast.specs.PlainDecl.{setting_tree};
    ghost use Rattle.f77_printer.specs.DeclText.{setting_text};

    ghost text = { λ s. setting_text (setting_tree s) };

    #[tactic(auto, using(crate::proofs::TextLemmas::char_steps))]
    fn write(&self, alloc: Global, out: &mut Text) -> Result<(), Memory> {
        out.append(self.name.as_slice())?;
        out.append(b"=")?;
        write_expr(alloc, out, &self.value)
    }
}

#[tactic(auto, using(crate::proofs::TextLemmas::block_steps))]
fn write_block(out: &mut Text, block: &Text, is_first: bool) -> Result<(), Memory>
    ensures { OnOk result (out.new ≡ out.old ++ block_text is_first block.now) }
{
    if block.is_empty() {
        return if is_first { Ok(()) } else { out.append(b"// ") };
    }
    out.append(b"/")?;
    out.append(block.as_slice())?;
    out.append(b"/ ")
}

#[tactic(auto, using(crate::proofs::TextLemmas::entity_steps))]
fn write_common(
    alloc: Global,
    out: &mut Text,
    part: &CommonPart,
    is_first: bool,
) -> Result<(), Memory>
    ensures { OnOk result (out.new ≡ out.old ++ common_text is_first (common_tree part.now)) }
{
    write_block(out, &part.block, is_first)?;
    write_joined(alloc, out, &part.members)
}

#[tactic(auto, using(crate::proofs::TextLemmas::common_steps))]
fn write_commons(alloc: Global, out: &mut Text, parts: &List<CommonPart>) -> Result<(), Memory>
    ensures { OnOk result (out.new ≡ out.old ++ commons_text (map common_tree parts.now)) }
{
    let mut is_first = true;
    for part in parts.as_slice() {
        if !is_first {
            out.append(b" ")?;
        }
        write_common(alloc, out, part, is_first)?;
        is_first = false;
    }
    Ok(())
}

impl Written for List<Expr> {
    ghost use Rattle.std.specs.Prelude.{map};
    ghost use Rattle.f77_ast.specs.Plain.{expr_tree};
    ghost use Rattle.f77_printer.specs.DeclText.{group_text};

    ghost text = { λ es. group_text (map expr_tree es) };

    #[tactic(auto, using(crate::proofs::TextLemmas::group_steps))]
    fn write(&self, alloc: Global, out: &mut Text) -> Result<(), Memory> {
        out.append(b"(")?;
        write_joined(alloc, out, self)?;
        out.append(b")")
    }
}

impl Written for SaveItem {
    ghost use Rattle.f77_printer.specs.DeclText.{save_item_text};

    ghost text = { save_item_text };

    #[tactic(auto, using(crate::proofs::TextLemmas::char_steps))]
    fn write(&self, _alloc: Global, out: &mut Text) -> Result<(), Memory> {
        match self {
            SaveItem::Name(name) => out.append(name.as_slice()),
            SaveItem::Block(block) => {
                out.append(b"/")?;
                out.append(block.as_slice())?;
                out.append(b"/")
            }
        }
    }
}

#[tactic(auto, using(crate::proofs::TextLemmas::save_steps))]
fn write_save(alloc: Global, out: &mut Text, items: &List<SaveItem>) -> Result<(), Memory>
    ensures { OnOk result (out.new ≡ out.old ++ save_text items.now) }
{
    out.append(b"SAVE")?;
    if items.is_empty() {
        return Ok(());
    }
    out.append(b" ")?;
    write_joined(alloc, out, items)
}

#[tactic(auto, using(crate::proofs::TextLemmas::char_steps))]
fn write_repeat(alloc: Global, out: &mut Text, repeat: Option<u32>) -> Result<(), Memory>
    ensures { OnOk result (out.new ≡ out.old ++ repeat_text repeat) }
{
    match repeat {
        None => Ok(()),
        Some(n) => {
            let text = format!(in alloc; "{n}")?;
            out.append(text.as_bytes())?;
            out.append(b"*")
        }
    }
}

impl Written for DataValue {
    ghost use Rattle.f77_ast.specs.PlainDecl.{data_value_tree};
    ghost use Rattle.f77_printer.specs.DeclText.{data_value_text};

    ghost text = { λ v. data_value_text (data_value_tree v) };

    #[tactic(auto, using(crate::proofs::TextLemmas::char_steps))]
    fn write(&self, alloc: Global, out: &mut Text) -> Result<(), Memory> {
        write_repeat(alloc, out, self.repeat)?;
        write_expr(alloc, out, &self.value)
    }
}

#[tactic(auto, using(crate::proofs::TextLemmas::data_steps))]
fn write_data_group(alloc: Global, out: &mut Text, group: &DataGroup) -> Result<(), Memory>
    ensures { OnOk result (out.new ≡ out.old ++ data_group_text (data_tree group.now)) }
{
    write_joined(alloc, out, &group.targets)?;
    out.append(b" /")?;
    write_joined(alloc, out, &group.values)?;
    out.append(b"/")
}

#[tactic(auto, using(crate::proofs::TextLemmas::data_groups_steps))]
fn write_data(alloc: Global, out: &mut Text, groups: &List<DataGroup>) -> Result<(), Memory>
    ensures { OnOk result (out.new ≡ out.old ++ data_text (map data_tree groups.now)) }
{
    let mut is_first = true;
    for group in groups.as_slice() {
        if !is_first {
            out.append(b" ")?;
        }
        is_first = false;
        write_data_group(alloc, out, group)?;
    }
    Ok(())
}

#[tactic(auto, using(crate::proofs::TextLemmas::setting_steps))]
fn write_settings(alloc: Global, out: &mut Text, settings: &List<Setting>) -> Result<(), Memory>
    ensures { OnOk result (out.new ≡ out.old ++ settings_text (map setting_tree settings.now)) }
{
    out.append(b"(")?;
    write_joined(alloc, out, settings)?;
    out.append(b")")
}

fn write_equivalence(alloc: Global, out: &mut Text, groups: &List<List<Expr>>) -> Result<(), Memory>
    ensures { OnOk result (out.new ≡ out.old ++ decl_text (equivalence (map (map expr_tree) groups.now))) }
{
    out.append(b"EQUIVALENCE ")?;
    write_joined(alloc, out, groups)
}

/// Appends the text of a specification statement, from column 7 on, its keyword included.
#[tactic(auto, using(crate::proofs::TextLemmas::decl_steps))]
pub fn write_decl(alloc: Global, out: &mut Text, decl: &Decl) -> Result<(), Memory>
    ensures { OnOk result (out.new ≡ out.old ++ decl_text (decl_tree decl.now)) }
{
    match decl {
        Decl::Implicit(parts) => write_implicit(alloc, out, parts),
        Decl::Integer(entities) => {
            out.append(b"INTEGER ")?;
            write_joined(alloc, out, entities)
        }
        Decl::Logical(entities) => {
            out.append(b"LOGICAL ")?;
            write_joined(alloc, out, entities)
        }
        Decl::Dimension(entities) => {
            out.append(b"DIMENSION ")?;
            write_joined(alloc, out, entities)
        }
        Decl::Parameter(settings) => {
            out.append(b"PARAMETER ")?;
            write_settings(alloc, out, settings)
        }
        Decl::Common(parts) => {
            out.append(b"COMMON ")?;
            write_commons(alloc, out, parts)
        }
        Decl::Equivalence(groups) => write_equivalence(alloc, out, groups),
        Decl::Save(items) => write_save(alloc, out, items),
        Decl::Data(groups) => {
            out.append(b"DATA ")?;
            write_data(alloc, out, groups)
        }
    }
}
