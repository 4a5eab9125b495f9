//! leafnet: prints the mesh and the net of a board record. All that it does stands in crate leafnet_command; here it
//! gets the command line, the files and the standard streams.
#![tactic(auto)]

ghost use Rattle.std.specs.Prelude.{◌≡◌};
ghost use Rattle.std.specs.Process.{exit_status};
ghost use Rattle.leafnet_command.specs.Ended.{status_of};

use leafnet_command::ending::Ending;
use leafnet_command::run::run;
use std::io::{ErrorKind, Write};
use std::process::ExitCode;
use std::{env, io};

// The words behind the program's name.
fn words(rt: &HostRuntime) -> io::Result<Vec<String>> {
    Ok(env::args(rt)?.skip(1).collect(rt.alloc())?)
}

// Says how it ended. Where standard error takes nothing, the status is all that is left to say it.
fn conclude(rt: &HostRuntime, ending: Ending<'_>) -> ExitCode
    ensures { exit_status result ≡ status_of ending.entry }
{
    let _ = ending.say(&mut rt.stderr());
    ExitCode::from(ending.status())
}

fn main(rt: HostRuntime) -> ExitCode {
    match words(&rt) {
        Ok(words) => {
            let ending = run(&rt, &words, &mut rt.reader(), &mut io::writer(&rt));
            conclude(&rt, ending)
        }
        // The words alone take memory.
        Err(why) if why.kind() == ErrorKind::OutOfMemory => {
            let _ = writeln!(rt.stderr(), "leafnet: out of memory");
            ExitCode::FAILURE
        }
        // A word is no text.
        Err(_) => conclude(&rt, Ending::Misused),
    }
}
