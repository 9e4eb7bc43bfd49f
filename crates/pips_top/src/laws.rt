//! What is said of a program that was read is true and leaves nothing out, and what is written of it is read again, line by line, as a program, and as one with marked loops.
ghost use Rattle.pips_top.specs.Laws.{AnsweredSoundly, ReadAllSaid, ReadBoundsHold, ReadClaimsBack, ReadClaimsHold, ReadLinesMean, ReadMarkedBack, ReadRunsInterleaved, ReadSoundly, ReadWrittenBack};

use laws_bounds::laws_analyses::{analyses_are_whole, read_analyses_hold, read_regions_hold};
use laws_bounds::laws_marks::{read_ins_hold, read_outs_hold, read_runs_do_as_plain};
use laws_bounds::{check_lines_pass, safe_lines_hold};
use laws_lines::{
    all_in_lines_pass, all_out_lines_pass, all_region_lines_pass, analyses_are_read_back,
    claims_read_back, directives_read_back, in_lines_mean_regions, ins_are_over_places,
    loop_lines_are_passed_over, marks_read_back, names_are_words, obstacles_are_no_directives,
    out_lines_mean_regions, outs_are_over_places, reductions_read_back, region_lines_mean_regions,
    regions_are_over_places, texts_are_written_again,
};
use laws_programs::blocks_have_a_chain;
use laws_programs::roundtrip_programs::{
    lines_are_passed_over, names_are_shown, programs_read_back,
};
use pipsmake_base::laws_database::results_follow;
use pipsmake_base::pipsmake_db::each_print_is_the_program;

/// What is said of a program that was read holds in every run of it, up to its end or its first fault, on OUT regions in each that no fault ends: on scalars, and
/// on regions, whose systems name subscripts and analysed scalars alone.
fn claims_hold()
    ensures { ReadClaimsHold }
{
    read_analyses_hold();
    read_regions_hold();
    read_ins_hold();
    read_outs_hold();
    regions_are_over_places();
    ins_are_over_places();
    outs_are_over_places();
}

/// What the lines SAFE of a program that was read say of references holds in every run of it, up to its end or its first fault.
fn bounds_hold()
    ensures { ReadBoundsHold }
{
    safe_lines_hold();
}

/// Something is said of each module of a program that was read, once; each of its statements has a precondition, a transformer, and sets of READ and WRITE, IN and OUT regions, and each DO a mark.
fn all_is_said()
    ensures { ReadAllSaid }
{
    analyses_are_whole();
    results_follow();
}

/// Each claim, and each directive, that is added to the text of a program that was read is read as what was found there, and each region of a DO, a CALL and an entry has its line.
fn lines_mean_results()
    ensures { ReadLinesMean }
{
    analyses_are_whole();
    analyses_are_read_back();
    names_are_words();
    blocks_have_a_chain();
    region_lines_mean_regions();
    in_lines_mean_regions();
    out_lines_mean_regions();
    directives_read_back();
    reductions_read_back();
    obstacles_are_no_directives();
}

/// What is written of a program that was read is read again as the same program, and written as the same text.
fn written_reads_back()
    ensures { ReadWrittenBack }
{
    programs_read_back();
    texts_are_written_again();
    lines_are_passed_over();
    all_region_lines_pass();
    all_in_lines_pass();
    all_out_lines_pass();
    loop_lines_are_passed_over();
    check_lines_pass();
    names_are_shown();
    blocks_have_a_chain();
}

/// What is written of a program that was read is read, with its claims, as that program with just the claims that are said of it, each before its statement.
fn written_reads_claims()
    ensures { ReadClaimsBack }
{
    claims_read_back();
    lines_are_passed_over();
    all_region_lines_pass();
    all_in_lines_pass();
    all_out_lines_pass();
    loop_lines_are_passed_over();
    check_lines_pass();
    names_are_shown();
    blocks_have_a_chain();
    written_reads_back();
}

/// What is written of a program that was read is read, with its directives and their clauses, as that program with just its parallel loops marked.
fn written_reads_marked()
    ensures { ReadMarkedBack }
{
    marks_read_back();
    analyses_are_whole();
    names_are_words();
    lines_are_passed_over();
    all_region_lines_pass();
    all_in_lines_pass();
    all_out_lines_pass();
    loop_lines_are_passed_over();
    check_lines_pass();
    names_are_shown();
    blocks_have_a_chain();
    written_reads_back();
}

/// And this program does as the one that was read: in each run that comes to its end without a fault, its marked loops interleaved by whatever schedule, and the copies of
/// their reduction variables combined in whatever order, it never faults, and ends with the same output and the same readable variables, but for copies.
fn written_runs_interleaved()
    ensures { ReadRunsInterleaved }
{
    read_runs_do_as_plain();
    analyses_are_whole();
}

/// So what is written of a program that was read is sound.
pub fn written_is_sound()
    ensures { ReadSoundly }
{
    claims_hold();
    bounds_hold();
    all_is_said();
    lines_mean_results();
    written_reads_back();
    written_reads_claims();
    written_reads_marked();
    written_runs_interleaved();
}

/// And so is each program that a session prints.
pub fn answered_is_sound()
    ensures { AnsweredSoundly }
{
    each_print_is_the_program();
    written_is_sound();
}
