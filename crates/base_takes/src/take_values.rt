//! Results out of compact JSON.
use crate::{Cursor, Take, take_list};
use affine_systems::System;
use base_json::DecodeError;
use base_values::StoredValue;
use f77_ast::{At, EffectSet, Mark, Results, Symbols, Unit, Variable};
use fx_lists::List;
use pipsmake_rules::Kind;
use region_sets::{Access, Region, RegionSet};
use std::alloc::Global;
use transformer_algebra::Transformer;

/// What stands between what is said of statements and the summary.
const SUMMARY: &[u8] = b",\"summary\":";

impl Take<Symbols> for EffectSet {
    fn take(
        alloc: Global,
        scope: &Symbols,
        from: &mut Cursor<'_>,
    ) -> Result<EffectSet, DecodeError> {
        from.word(b"{\"io\":")?;
        let io = from.flag()?;
        from.word(b",\"reads\":")?;
        let reads: List<Variable> = take_list(alloc, scope, from)?;
        from.word(b",\"stops\":")?;
        let stops = from.flag()?;
        from.word(b",\"writes\":")?;
        let writes: List<Variable> = take_list(alloc, scope, from)?;
        from.word(b"}")?;
        Ok(EffectSet {
            reads,
            writes,
            io,
            stops,
        })
    }
}

impl Take<Symbols> for Transformer {
    fn take(
        alloc: Global,
        scope: &Symbols,
        from: &mut Cursor<'_>,
    ) -> Result<Transformer, DecodeError> {
        from.word(b"{\"cells\":")?;
        let cells: List<u32> = take_list(alloc, scope, from)?;
        from.word(b",\"foreign\":")?;
        let foreign: List<Unit> = take_list(alloc, scope, from)?;
        from.word(b",\"system\":")?;
        let system: System = Take::take(alloc, scope, from)?;
        from.word(b"}")?;
        Ok(Transformer {
            cells,
            foreign,
            system,
        })
    }
}

/// Takes a kind of region.
fn take_access(from: &mut Cursor<'_>) -> Result<Access, DecodeError> {
    if from.has_word(b"\"READ\"") {
        return Ok(Access::Read);
    }
    if from.has_word(b"\"WRITE\"") {
        return Ok(Access::Write);
    }
    if from.has_word(b"\"IN\"") {
        return Ok(Access::In);
    }
    from.word(b"\"OUT\"")?;
    Ok(Access::Out)
}

impl Take<Symbols> for Region {
    fn take(alloc: Global, scope: &Symbols, from: &mut Cursor<'_>) -> Result<Region, DecodeError> {
        from.word(b"{\"exact\":")?;
        let exact = from.flag()?;
        from.word(b",\"kind\":")?;
        let kind = take_access(from)?;
        from.word(b",\"of\":")?;
        let variable: Variable = Take::take(alloc, scope, from)?;
        from.word(b",\"pieces\":")?;
        let pieces: List<System> = take_list(alloc, scope, from)?;
        from.word(b"}")?;
        Ok(Region {
            variable,
            kind,
            exact,
            pieces,
        })
    }
}

impl Take<Symbols> for RegionSet {
    fn take(
        alloc: Global,
        scope: &Symbols,
        from: &mut Cursor<'_>,
    ) -> Result<RegionSet, DecodeError> {
        take_list(alloc, scope, from)
    }
}

impl<T: Take<Symbols>> Take<Symbols> for At<T> {
    fn take(alloc: Global, scope: &Symbols, from: &mut Cursor<'_>) -> Result<At<T>, DecodeError> {
        from.word(b"[")?;
        let id = from.short_number()?;
        from.word(b",")?;
        let value: T = Take::take(alloc, scope, from)?;
        from.word(b"]")?;
        Ok(At { id, value })
    }
}

/// Takes what is said of statements, and of the module behind a key.
fn take_results<T: Take<Symbols>>(
    alloc: Global,
    symbols: &Symbols,
    key: &[u8],
    from: &mut Cursor<'_>,
) -> Result<Results<T>, DecodeError> {
    from.word(b"{\"at\":")?;
    let at: List<At<T>> = take_list(alloc, symbols, from)?;
    from.word(key)?;
    let summary: T = Take::take(alloc, symbols, from)?;
    from.word(b"}")?;
    Ok(Results { at, summary })
}

/// READ and WRITE, IN or OUT regions.
fn take_regions(
    alloc: Global,
    symbols: &Symbols,
    from: &mut Cursor<'_>,
) -> Result<Results<RegionSet>, DecodeError> {
    take_results(alloc, symbols, SUMMARY, from)
}

/// Takes a result of a kind, of a module with these symbols. Err(Shape) where something else comes, what is left to another reader, and for a kind that is not
/// stored.
pub fn take_stored(
    alloc: Global,
    symbols: &Symbols,
    kind: Kind,
    from: &mut Cursor<'_>,
) -> Result<StoredValue, DecodeError> {
    match kind {
        Kind::Effects => {
            let taken: Results<EffectSet> = take_results(alloc, symbols, SUMMARY, from)?;
            Ok(StoredValue::Effects(taken))
        }
        Kind::Transformers => {
            let taken: Results<Transformer> = take_results(alloc, symbols, SUMMARY, from)?;
            Ok(StoredValue::Transformers(taken))
        }
        Kind::Preconditions => {
            let taken: Results<System> = take_results(alloc, symbols, b",\"entry\":", from)?;
            Ok(StoredValue::Preconditions(taken))
        }
        Kind::Regions => Ok(StoredValue::Regions(take_regions(alloc, symbols, from)?)),
        Kind::InRegions => Ok(StoredValue::InRegions(take_regions(alloc, symbols, from)?)),
        Kind::OutRegions => Ok(StoredValue::OutRegions(take_regions(alloc, symbols, from)?)),
        Kind::Marks => {
            let taken: List<At<Mark>> = take_list(alloc, symbols, from)?;
            Ok(StoredValue::Marks(taken))
        }
        Kind::Parsed | Kind::Lines | Kind::Symbols | Kind::CallGraph | Kind::Printed => {
            Err(DecodeError::Shape)
        }
    }
}
