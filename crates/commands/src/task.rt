// What a command does once its model is compiled.
ghost use Rattle.std.specs.Prelude.{◌≡◌, ◌≤◌};
ghost use Rattle.commands.specs.Commands.{IsWithin, judges, made, trial_target, task_of};
ghost use Rattle.commands.specs.Commands.{verb_task};
ghost use Rattle.commands.specs.CommandViews.{names_of, task_view, IsSmallTask};
ghost use Rattle.commands.specs.TrialFiles.{transfer_text};
ghost use Rattle.commands.specs.CommandViews.{command_of as command_view};

use crate::command::{Command, FileNames, Verb};
use crate::trial::TrialWords;

/// What is written of a transfer that is judged and accepted.
#[derive(Clone, Copy)]
pub enum Filed {
    /// The certificates of its areas.
    Certificates,
    /// The certificates of the areas of a trial of that size, which the report says.
    Trial(u32),
    /// The polygons of its areas.
    Polygons,
}

/// What is written of a transfer that is judged and accepted, and the name of its file.
#[derive(Clone, Copy)]
pub struct Target<'a> {
    pub name: &'a str,
    pub filed: Filed,
}

/// Where the text of a transfer comes from.
#[derive(Clone, Copy)]
pub enum TransferSource<'a> {
    /// The file of that name.
    File(&'a str),
    /// It is made: a grid of so many cells a side.
    Grid(u32),
}

/// What a command does once its model is compiled.
#[derive(Clone, Copy)]
pub enum Task<'a> {
    /// The tables of the model are listed.
    Lists,
    /// A transfer is judged, and where it is accepted its target is written.
    Judges {
        transfer: TransferSource<'a>,
        target: Target<'a>,
    },
    /// A transfer is judged, and the certificates of the file of that name against its areas.
    Verifies {
        transfer: TransferSource<'a>,
        certificates: &'a str,
    },
    /// The transfer of the file of that name is written to the other file, in its canonical text.
    /// Its values are not judged.
    Rewrites {
        transfer: &'a str,
        file: &'a str,
    },
    /// The transfer of the file of that name is judged, and whether the points that the other file
    /// states lie in their areas.
    TestsPoints {
        transfer: &'a str,
        links: &'a str,
    },
}

// The task of a command on three files.
fn verb_task<'a>(verb: Verb, names: &FileNames<'a>) -> Task<'a>
    ensures task { task_view result ≡ verb_task verb (names_of names.now) }
    ensures small { IsSmallTask result }
{
    let transfer = TransferSource::File(names.transfer);
    match verb {
        Verb::Check => Task::Judges {
            transfer,
            target: Target {
                name: names.third,
                filed: Filed::Certificates,
            },
        },
        Verb::Verify => Task::Verifies {
            transfer,
            certificates: names.third,
        },
        Verb::Polygons => Task::Judges {
            transfer,
            target: Target {
                name: names.third,
                filed: Filed::Polygons,
            },
        },
        Verb::Canonical => Task::Rewrites {
            transfer: names.transfer,
            file: names.third,
        },
        Verb::Points => Task::TestsPoints {
            transfer: names.transfer,
            links: names.third,
        },
    }
}

// The task of a trial.
fn trial_task<'a>(trial: &TrialWords<'a>) -> Task<'a>
    requires { trial.now.size ≤ 500 }
    ensures task { task_view result ≡ judges (made (transfer_text trial.now.size))
        (trial_target trial.now.size trial.now.certificate.now) }
    ensures small { IsSmallTask result }
{
    Task::Judges {
        transfer: TransferSource::Grid(trial.size),
        target: Target {
            name: trial.certificate,
            filed: Filed::Trial(trial.size),
        },
    }
}

impl<'a> Command<'a> {
    /// What the command does once its model is compiled.
    pub fn task(&self) -> Task<'a>
        requires { IsWithin (command_view self.now) }
        ensures task { task_view result ≡ task_of (command_view self.now) }
        ensures small { IsSmallTask result }
    {
        match self {
            Command::Compile(_) => Task::Lists,
            Command::OnFiles(verb, names) => verb_task(*verb, names),
            Command::Trial(trial) => trial_task(trial),
        }
    }
}
