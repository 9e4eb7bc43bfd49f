//! Equations between the subscripts of a variable of the callee and of the variable of the caller that it is.
use affine_systems::Row;
use f77_ast::Variable;
use fx_lists::List;

/// The variable of the caller that a variable of the callee is, and what subscripts its elements have there.
#[derive(Drop)]
pub struct Link {
    /// The variable of the caller.
    pub variable: Variable,
    /// How many dimensions the callee's variable has, where they are moved; else 0.
    pub rank: u32,
    /// Whether the subscripts differ. The callee's are then `Aux(1)` .. in the rows, and else `Phi`, as in the caller.
    pub moved: bool,
    /// The equations. Of a cell of the callee with the number n stands `Aux(rank + 1 + n)`.
    pub rows: List<Row>,
    /// Whether each element of the caller's variable that the equations give for an element of the callee's is that element.
    pub exact: bool,
}
