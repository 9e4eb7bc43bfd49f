//! Whether results fit a module.
ghost use Rattle.std.specs.Prelude.{◌≡◌, true, map, IfOk};
ghost use Rattle.f77_ast.specs.Index.{names_of};
ghost use Rattle.f77_ast.specs.declared.results.At.{At as TheAt};
ghost use Rattle.base_json.specs.Scopes.{cells_alone};
ghost use Rattle.base_values.specs.Naming.{SystemFits};
ghost use Rattle.base_values.specs.Fits.{AllFit, EffectsFit, MarkFits, ReasonFits, ResultsFit, StoredFits, TransformerFits};
ghost use Rattle.base_values.specs.Scopes.{names_tree};

use crate::check::{Check, check_list};
use crate::check_names::{KindScope, variable_fits};
use crate::check_rows::{cells_system_fits, exit_system_fits};
use affine_systems::System;
use base_values::{Names, StoredValue};
use f77_ast::{At, EffectSet, Mark, Reason, Results, StmtId};
use fx_lists::List;
use pipsmake_rules::Kind;
use std::alloc::{AllocError as Memory, Global};
use transformer_algebra::Transformer;

impl<'a> Check<KindScope<'a>> for EffectSet {
    ghost fits = { λ s e. EffectsFit (names_of s.symbols.now) e };

    fn check(&self, alloc: Global, scope: &KindScope<'a>) -> Result<bool, Memory> {
        let fit = check_list(alloc, scope, &self.reads)?;
        if !fit {
            return Ok(false);
        }
        check_list(alloc, scope, &self.writes)
    }
}

impl<'a> Check<KindScope<'a>> for Transformer {
    ghost fits = { λ s t. TransformerFits (names_of s.symbols.now) t };

    fn check(&self, alloc: Global, scope: &KindScope<'a>) -> Result<bool, Memory> {
        let are_cells = check_list(alloc, scope, &self.cells)?;
        if !are_cells {
            return Ok(false);
        }
        let are_units = check_list(alloc, scope, &self.foreign)?;
        if !are_units {
            return Ok(false);
        }
        exit_system_fits(alloc, scope.symbols, self.cells.as_slice(), &self.system)
    }
}

impl<'a> Check<KindScope<'a>> for System {
    ghost fits = { λ s y. SystemFits (cells_alone (names_of s.symbols.now)) y };

    fn check(&self, alloc: Global, scope: &KindScope<'a>) -> Result<bool, Memory> {
        cells_system_fits(alloc, scope.symbols, self)
    }
}

fn reason_fits(scope: &KindScope<'_>, reason: &Reason) -> bool
    ensures { result ≡ true → ReasonFits (names_of scope.now.symbols.now) reason.now }
{
    match reason {
        Reason::Jump | Reason::InputOutput | Reason::Step | Reason::Index => true,
        Reason::Carries(variable, _, _) => variable_fits(scope.symbols, variable),
    }
}

impl<'a> Check<KindScope<'a>> for Mark {
    ghost fits = { λ s m. MarkFits (names_of s.symbols.now) m };

    fn check(&self, alloc: Global, scope: &KindScope<'a>) -> Result<bool, Memory> {
        match self {
            Mark::Parallel(numbers) => check_list(alloc, scope, numbers),
            Mark::Serial(reason) => Ok(reason_fits(scope, reason)),
        }
    }
}

impl<'a, T: Check<KindScope<'a>>> Check<KindScope<'a>> for At<T> {
    ghost fits = { λ s a. T.fits s a.value };

    fn check(&self, alloc: Global, scope: &KindScope<'a>) -> Result<bool, Memory> {
        self.value.check(alloc, scope)
    }
}

/// Whether these are the numbers of the statements that something is said of.
fn are_at<T>(ids: &[StmtId], at: &[At<T>]) -> bool
    ensures { result ≡ true → map (λ (a : TheAt _). a.id) at.now ≡ ids.now }
{
    let mut ids = ids;
    let mut rest = at;
    while let [one, more @ ..] = rest {
        let [id, later @ ..] = ids else {
            return false;
        };
        if one.id != *id {
            return false;
        }
        ids = later;
        rest = more;
    }
    ids.is_empty()
}

fn all_fit<'a, T: Check<KindScope<'a>>>(
    alloc: Global,
    scope: &KindScope<'a>,
    ids: &List<StmtId>,
    at: &List<At<T>>,
) -> Result<bool, Memory>
    ensures { IfOk result (λ b. b ≡ true → AllFit (T.fits scope.now) ids.now at.now) }
{
    let same = are_at(ids.as_slice(), at.as_slice());
    if !same {
        return Ok(false);
    }
    check_list(alloc, scope, at)
}

fn results_fit<'a, T: Check<KindScope<'a>>>(
    alloc: Global,
    scope: &KindScope<'a>,
    ids: &List<StmtId>,
    results: &Results<T>,
) -> Result<bool, Memory>
    ensures { IfOk result (λ b. b ≡ true → ResultsFit (T.fits scope.now) ids.now results.now) }
{
    let fit = all_fit(alloc, scope, ids, &results.at)?;
    if !fit {
        return Ok(false);
    }
    results.summary.check(alloc, scope)
}

/// Whether a result fits the module with these names.
pub fn stored_fits(alloc: Global, names: &Names<'_>, value: &StoredValue) -> Result<bool, Memory>
    ensures { IfOk result (λ b. b ≡ true → StoredFits (names_tree names.now) value.now) }
{
    let symbols = names.symbols;
    let ids = &names.numbers.statements;
    match value {
        StoredValue::Effects(results) => {
            let kind = Kind::Effects;
            results_fit(alloc, &KindScope { symbols, kind }, ids, results)
        }
        StoredValue::Transformers(results) => {
            let kind = Kind::Transformers;
            results_fit(alloc, &KindScope { symbols, kind }, ids, results)
        }
        StoredValue::Preconditions(results) => {
            let kind = Kind::Preconditions;
            results_fit(alloc, &KindScope { symbols, kind }, ids, results)
        }
        StoredValue::Regions(results) => {
            let kind = Kind::Regions;
            results_fit(alloc, &KindScope { symbols, kind }, ids, results)
        }
        StoredValue::InRegions(results) => {
            let kind = Kind::InRegions;
            results_fit(alloc, &KindScope { symbols, kind }, ids, results)
        }
        StoredValue::OutRegions(results) => {
            let kind = Kind::OutRegions;
            results_fit(alloc, &KindScope { symbols, kind }, ids, results)
        }
        StoredValue::Marks(marks) => {
            let kind = Kind::Marks;
            all_fit(
                alloc,
                &KindScope { symbols, kind },
                &names.numbers.loops,
                marks,
            )
        }
    }
}
