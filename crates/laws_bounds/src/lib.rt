//! References that are found safe stay inside their arrays, in the runs of programs that are read.
//!
//! What is claimed is in `specs/Claims.antt` and `Accepted.antt`; what a line SAFE says, in `specs/Lines.antt`, and what it claims of runs, in `specs/SafeLines.antt`.
#![tactic(auto)]

mod checks;

pub use bound_check;
pub use checks::{
    bodies_are_indexed, check_lines_pass, inside_never_faults, read_checks_hold,
    safe_lines_are_safe, safe_lines_hold,
};
pub use laws_analyses;
pub use laws_marks;
