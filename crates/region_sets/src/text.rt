//! How regions are written.
ghost use Rattle.std.specs.Prelude.{◌≡◌, ◌++◌, IfOk, OnOk, codes};
ghost use Rattle.affine_systems.specs.Rows.{system};
ghost use Rattle.system_text.specs.SystemText.{name_at, weak_text};
ghost use Rattle.f77_ast.specs.Index.{names_of};
ghost use Rattle.region_sets.specs.Written.{access_text as access_text_is, name_text, piece_text as piece_text_is, pieces_text, exact_text as exact_text_is, region_text as region_text_is};

use crate::region::any_weak;
use crate::{Access, Region};
use affine_systems::System;
use f77_ast::{Symbols, Variable, names_of};
use fx_lists::Text;
use std::alloc::{AllocError as Memory, Global};
use system_text::system_text;

fn access_text(kind: Access) -> &'static [u8]
    ensures { result.now ≡ access_text_is kind }
{
    match kind {
        Access::Read => b"READ ",
        Access::Write => b"WRITE ",
        Access::In => b"IN ",
        Access::Out => b"OUT ",
    }
}

fn exact_text(exact: bool) -> &'static [u8]
    ensures { result.now ≡ exact_text_is exact }
{
    if exact { b" EXACT" } else { b" MAY" }
}

/// Writes the name of the symbol with a number, from 1; nothing where there is none.
fn put_own(out: &mut Text, names: &[Text], number: u32) -> Result<(), Memory>
    ensures { IfOk result (λ _. out.new ≡ out.old ++ name_at names.now number) }
{
    if number == 0 {
        return Ok(());
    }
    match names.get(number as usize - 1) {
        None => Ok(()),
        Some(name) => out.append(name.as_slice()),
    }
}

/// Writes a variable: its name, a block as `/B/`, a saved local of another module as `S:X`.
#[tactic(auto, using(std::proofs::Common::append_assoc))]
pub fn put_variable(out: &mut Text, names: &[Text], v: &Variable) -> Result<(), Memory>
    ensures { IfOk result (λ _. out.new ≡ out.old ++ name_text names.now v.now) }
{
    match v {
        Variable::Own(n) => put_own(out, names, *n),
        Variable::Block(block) => {
            out.append(b"/")?;
            out.append(block.as_slice())?;
            out.append(b"/")
        }
        Variable::Saved(module, local) => {
            out.append(module.as_slice())?;
            out.append(b":")?;
            out.append(local.as_slice())
        }
    }
}

/// A piece between braces.
fn piece_text(alloc: Global, names: &[Text], piece: &System) -> Result<Text, Memory>
    ensures { IfOk result (λ t. t ≡ piece_text_is names.now piece.now) }
{
    let plain = System {
        rows: piece.rows.clone()?,
        weak: false,
    };
    system_text(alloc, names, &plain)
}

#[tactic(auto, using(std::proofs::Common::append_assoc))]
fn put_pieces(
    alloc: Global,
    out: &mut Text,
    names: &[Text],
    pieces: &[System],
) -> Result<(), Memory>
    ensures { IfOk result (λ _. out.new ≡ out.old ++ pieces_text names.now pieces.now) }
{
    let mut any = false;
    for piece in pieces {
        if any {
            out.append(b" + ")?;
        }
        let text = piece_text(alloc, names, piece)?;
        out.append(text.as_slice())?;
        any = true;
    }
    Ok(())
}

/// The text of a region, as `region_text`, from the names of the symbols in order, the first of which has number 1.
#[tactic(auto, using(std::proofs::Common::append_assoc))]
pub fn region_line(alloc: Global, names: &[Text], r: &Region) -> Result<Text, Memory>
    ensures { IfOk result (λ t. t ≡ region_text_is names.now r.now) }
{
    let mut out = Text::from_bytes(alloc, access_text(r.kind))?;
    put_variable(&mut out, names, &r.variable)?;
    out.append(b" ")?;
    put_pieces(alloc, &mut out, names, r.pieces.as_slice())?;
    out.append(exact_text(r.exact))?;
    if any_weak(r.pieces.as_slice()) {
        out.append(b" WEAK")?;
    }
    Ok(out)
}

/// The text of a region with the names of these symbols, all of which are copied: `READ A {1<=PHI1, PHI1<=N} EXACT`. `MAY` in place of
/// `EXACT` where it is not exact; ` + ` between systems; ` WEAK` at the end where one is over-approximated.
pub fn region_text(alloc: Global, symbols: &Symbols, r: &Region) -> Result<Text, Memory>
    ensures { IfOk result (λ t. t ≡ region_text_is (names_of symbols.now) r.now) }
{
    let names = names_of(alloc, symbols)?;
    region_line(alloc, names.as_slice(), r)
}
