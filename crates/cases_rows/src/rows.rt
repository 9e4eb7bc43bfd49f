//! Variables, rows and systems as they are written.
ghost use Rattle.std.specs.Prelude.{◌≡◌, IfOk};
ghost use Rattle.affine_systems.specs.Rows.{AllRows};
ghost use Rattle.affine_systems.specs.Given.{Fits, IsGiven, IsNormal};

use crate::decode_error::DecodeError;
use crate::given::{are_rows, fitting, is_row};
use affine_systems::{Norm, Row, Rows, System, Term, Terms, Var, Vars, normalise};
use fx_lists::List;
use std::alloc::{AllocError, Global};
use std::mem;

pub fn var_of(word: &str) -> Option<Var> {
    if let Some(number) = word.strip_prefix('c') {
        return Some(Var::Cell(number.parse().ok()?));
    }
    if let Some(number) = word.strip_prefix('x') {
        return Some(Var::Exit(number.parse().ok()?));
    }
    if let Some(number) = word.strip_prefix('p') {
        return Some(Var::Phi(number.parse().ok()?));
    }
    if let Some(number) = word.strip_prefix('a') {
        return Some(Var::Aux(number.parse().ok()?));
    }
    None
}

/// A system as far as it has been read.
#[derive(Drop)]
struct Draft {
    rows: Rows,
    weak: bool,
    terms: Terms,
    factor: Option<i128>,
    equal: Option<bool>,
}

impl Draft {
    fn new(alloc: Global) -> Draft {
        Draft {
            rows: List::new(alloc),
            weak: false,
            terms: List::new(alloc),
            factor: None,
            equal: None,
        }
    }

    /// Takes a factor, a variable or a bound.
    fn parse_part(&mut self, alloc: Global, word: &str) -> Result<(), DecodeError> {
        if let Some(equal) = self.equal {
            let bound = word.parse().map_err(|_| DecodeError::Malformed)?;
            let terms = mem::replace(&mut self.terms, List::new(alloc));
            self.equal = None;
            self.rows.push(Row {
                equal,
                terms,
                bound,
            })?;
        } else if let Some(factor) = self.factor {
            let var = var_of(word).ok_or(DecodeError::Malformed)?;
            self.factor = None;
            self.terms.push(Term { var, factor })?;
        } else {
            self.factor = Some(word.parse().map_err(|_| DecodeError::Malformed)?);
        }
        Ok(())
    }

    fn take(&mut self, alloc: Global, word: &str) -> Result<(), DecodeError> {
        match word {
            "weak" => self.weak = true,
            "," => {}
            "<=" => self.equal = Some(false),
            "==" => self.equal = Some(true),
            _ => self.parse_part(alloc, word)?,
        }
        Ok(())
    }

    fn finish(self) -> System {
        let Draft {
            rows,
            weak,
            terms: _,
            factor: _,
            equal: _,
        } = self;
        System { rows, weak }
    }
}

/// The variables of words.
pub fn vars_of(alloc: Global, words: &str) -> Result<Vars, DecodeError> {
    let mut vars = List::new(alloc);
    for word in words.split_whitespace() {
        vars.push(var_of(word).ok_or(DecodeError::Malformed)?)?;
    }
    Ok(vars)
}

/// A system as it stands.
pub fn written_system(alloc: Global, part: &str) -> Result<System, DecodeError> {
    let mut draft = Draft::new(alloc);
    for word in part.split_whitespace() {
        draft.take(alloc, word)?;
    }
    Ok(draft.finish())
}

/// A system, tidied.
pub fn system_of(alloc: Global, part: &str) -> Result<System, DecodeError>
    ensures { IfOk result Fits }
{
    let sys = written_system(alloc, part)?;
    fitting(alloc, &sys)?.ok_or(DecodeError::Malformed)
}

/// Rows as they stand.
pub fn rows_of(alloc: Global, part: &str) -> Result<Vec<Row>, DecodeError>
    ensures { IfOk result (λ rs. AllRows IsGiven rs.items) }
{
    let System { rows, weak: _ } = written_system(alloc, part)?;
    if are_rows(rows.as_slice()) {
        Ok(rows.into_vec())
    } else {
        Err(DecodeError::Malformed)
    }
}

fn copy(alloc: Global, row: &Row) -> Result<Row, AllocError>
    ensures { IfOk result (λ r. r ≡ row.now) }
{
    Ok(Row {
        equal: row.equal,
        terms: List::from_slice(alloc, row.terms.as_slice())?,
        bound: row.bound,
    })
}

/// The first row as it stands.
pub fn row_of(alloc: Global, part: &str) -> Result<Row, DecodeError>
    ensures { IfOk result IsGiven }
{
    let sys = written_system(alloc, part)?;
    let row = sys.rows.get(0).ok_or(DecodeError::Malformed)?;
    if is_row(row) {
        Ok(copy(alloc, row)?)
    } else {
        Err(DecodeError::Malformed)
    }
}

/// The normal form of the first row.
pub fn normal_of(alloc: Global, part: &str) -> Result<Row, DecodeError>
    ensures { IfOk result IsNormal }
{
    let mut row = row_of(alloc, part)?;
    match normalise(&mut row) {
        Norm::Kept => Ok(row),
        Norm::True | Norm::False | Norm::TooBig => Err(DecodeError::Malformed),
    }
}
