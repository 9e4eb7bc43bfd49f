//! Whether regions fit a module.
ghost use Rattle.std.specs.Prelude.{◌≡◌, true, IfOk};
ghost use Rattle.pipsmake_rules.specs.Kinds.{same_kind};
ghost use Rattle.f77_ast.specs.Index.{names_of};
ghost use Rattle.base_json.specs.Scopes.{cells_alone, with_phi};
ghost use Rattle.base_values.specs.Naming.{SystemFits};
ghost use Rattle.base_values.specs.Words.{result_with as result_with_is};
ghost use Rattle.base_values.specs.Fits.{PiecesFit, RegionFits, RegionsFit};

use crate::check::{Check, check_list};
use crate::check_names::{KindScope, variable_fits};
use crate::check_rows::phi_system_fits;
use affine_systems::System;
use base_values::{are_apart, are_few};
use f77_ast::Symbols;
use fx_lists::List;
use pipsmake_rules::Kind;
use region_sets::{Access, Region, RegionSet};
use std::alloc::{AllocError as Memory, Global};

/// Whether results of a kind have such regions.
fn is_of_kind(access: Access, kind: Kind) -> bool
    ensures { result ≡ same_kind (result_with_is access) kind }
{
    match access {
        Access::Read | Access::Write => Kind::Regions.number() == kind.number(),
        Access::In => Kind::InRegions.number() == kind.number(),
        Access::Out => Kind::OutRegions.number() == kind.number(),
    }
}

/// The symbols of a module whose systems may name subscripts.
#[derive(Drop)]
struct PhiScope<'a> {
    symbols: &'a Symbols,
}

impl<'a> Check<PhiScope<'a>> for System {
    ghost fits = { λ s y. SystemFits (with_phi (cells_alone (names_of s.symbols.now))) y };

    fn check(&self, alloc: Global, scope: &PhiScope<'a>) -> Result<bool, Memory> {
        phi_system_fits(alloc, scope.symbols, self)
    }
}

/// Whether they are from one system to four, on cells and subscripts.
fn pieces_fit(alloc: Global, symbols: &Symbols, pieces: &List<System>) -> Result<bool, Memory>
    ensures { IfOk result (λ b. b ≡ true → PiecesFit (names_of symbols.now) pieces.now) }
{
    let few = are_few(pieces.as_slice());
    if !few {
        return Ok(false);
    }
    check_list(alloc, &PhiScope { symbols }, pieces)
}

impl<'a> Check<KindScope<'a>> for Region {
    ghost fits = { λ s r. RegionFits (names_of s.symbols.now) s.kind r };

    fn check(&self, alloc: Global, scope: &KindScope<'a>) -> Result<bool, Memory> {
        let named = variable_fits(scope.symbols, &self.variable);
        if !named {
            return Ok(false);
        }
        let here = is_of_kind(self.kind, scope.kind);
        if !here {
            return Ok(false);
        }
        pieces_fit(alloc, scope.symbols, &self.pieces)
    }
}

impl<'a> Check<KindScope<'a>> for RegionSet {
    ghost fits = { λ s rs. RegionsFit (names_of s.symbols.now) s.kind rs };

    fn check(&self, alloc: Global, scope: &KindScope<'a>) -> Result<bool, Memory> {
        let fit = check_list(alloc, scope, self)?;
        if !fit {
            return Ok(false);
        }
        are_apart(alloc, scope.symbols, self.as_slice())
    }
}
