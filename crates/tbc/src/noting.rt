//! When it is said by which seed a job is done, if that is the clock's: before it is done, or after it, if it is played on
//! the screen, which is drawn over that.
use tb_program_command_line::{Asked, Job};
use tb_program_commands::note_seed;

fn is_on_screen(job: &Job) -> bool {
    matches!(job, Job::Play(job) if job.screen)
}

/// Says it before a job.
pub fn note_before<R: Eprint>(rt: &R, asked: &Asked) {
    if asked.is_by_clock && !is_on_screen(&asked.job) {
        note_seed(rt, &asked.job);
    }
}

/// Says it after one.
pub fn note_after<R: Eprint>(rt: &R, asked: &Asked) {
    if asked.is_by_clock && is_on_screen(&asked.job) {
        note_seed(rt, &asked.job);
    }
}
