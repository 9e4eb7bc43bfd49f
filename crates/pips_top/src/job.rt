//! What a run does, by the words after the program's name.
ghost use Rattle.std.specs.Prelude.{◌≡◌};
ghost use Rattle.pips_top.specs.Jobs.{JobBy, does, shown, wanted_of};

use crate::wanted::Wanted;
use command_words::{Request, Task, request_of};
use fx_base::Words;
use fx_lists::Text;
use pipsmake_base::result_lines::Show;
use std::alloc::{AllocError as Memory, Global};

/// A base that is opened before the work, and kept after it.
#[derive(Drop)]
pub struct Opening {
    /// The name of its file.
    pub name: Text,
    /// Whether each result in it is made again and compared.
    pub verify: bool,
}

/// What a run does.
#[derive(Drop)]
pub enum Job {
    /// The program of an INPUT is written, with what is wanted beside it. The INPUT `-` is standard input.
    Write(Wanted, Text),
    /// The commands of the script of an INPUT are answered.
    Answer(Show, Text),
    /// The sample program of this many parts is analysed and counted.
    Count(u8),
    /// As `Write`, over a base.
    WriteOver(Wanted, Text, Opening),
    /// As `Answer`, over a base.
    AnswerOver(Show, Text, Opening),
}

/// What is shown, by the value of `--show`.
fn shown(show: command_words::Show) -> Show
    ensures { result ≡ shown show }
{
    match show {
        command_words::Show::All => Show::All,
        command_words::Show::Bare => Show::Bare,
        command_words::Show::Why => Show::Why,
    }
}

/// What is done of what words request.
fn does(request: Request) -> Job
    ensures { result ≡ does request }
{
    let Request {
        task,
        show,
        base,
        verify,
        reductions,
        bounds,
        input,
    } = request;
    let show = shown(show);
    let wanted = Wanted {
        show,
        reductions,
        bounds,
    };
    match base {
        None => match task {
            Task::Write => Job::Write(wanted, input),
            Task::Session => Job::Answer(show, input),
            Task::Generate(parts) => Job::Count(parts),
        },
        Some(name) => match task {
            Task::Write => Job::WriteOver(wanted, input, Opening { name, verify }),
            Task::Session => Job::AnswerOver(show, input, Opening { name, verify }),
            Task::Generate(parts) => Job::Count(parts),
        },
    }
}

/// The job that the words after the program's name request. None where they are refused.
pub fn job_of(alloc: Global, words: &Words) -> Result<Option<Job>, Memory>
    ensures { JobBy words.now result }
{
    match request_of(alloc, words) {
        Ok(Some(request)) => Ok(Some(does(request))),
        Ok(None) => Ok(None),
        Err(error) => Err(error),
    }
}
