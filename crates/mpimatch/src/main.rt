//! mpimatch: who received what from whom, and which ranks are stuck, by the trace texts of an MPI run.
//!
//! The program hands its words, the files and streams of the system, its threads and sockets to `program_runs`, and
//! ends with the status that comes of them. `crates/program_runs` has the rest.
#![tactic(auto)]

use mpi_model::Device;
use program_runs::{ending_of, ending_without_words};
use run_files::Folder;
use run_inputs::{Disk, Terminal};
use std::alloc::{AllocError, Global};
use std::io::{self, IsTerminal};
use std::process::ExitCode;

/// The words of the command line, the first being the program's name.
fn texts_of<'a>(alloc: Global, words: &'a [String]) -> Result<Vec<&'a str>, AllocError> {
    let mut texts = Vec::with_capacity(alloc, words.len())?;
    for word in words {
        texts.push(word.as_str())?;
    }
    Ok(texts)
}

/// Runs what the words ask for, writes its errors to standard error, and ends with its status.
fn main(rt: HostRuntime) -> ExitCode {
    let alloc = rt.alloc();
    let ending = match std::env::args(&rt) {
        Ok(args) => {
            let words: Result<Vec<String>, AllocError> = args.collect(alloc);
            match words {
                Ok(words) => match texts_of(alloc, &words) {
                    Ok(texts) => {
                        let mut folder = Folder::new(&rt);
                        let mut watcher = Terminal::new(&rt, rt.stderr().is_terminal());
                        let mut out = Device::new(io::writer(&rt));
                        let (words, files) = (texts.as_slice(), Disk::new(&rt));
                        ending_of(
                            &rt,
                            alloc,
                            words,
                            &files,
                            &mut folder,
                            &mut watcher,
                            &mut out,
                        )
                    }
                    Err(error) => Err(error),
                },
                Err(error) => Err(error),
            }
        }
        Err(error) if error.kind() == io::ErrorKind::OutOfMemory => Err(AllocError),
        Err(_) => ending_without_words(alloc),
    };
    // (the status tells how the run ended, also where standard error takes no byte)
    match ending {
        Ok(ending) => {
            let errors = ending.errors.as_str();
            let _ = eprint!(rt; "{errors}");
            ExitCode::from(ending.status)
        }
        Err(_) => {
            let _ = eprint!(rt; "mpimatch: Memory\n");
            ExitCode::from(1)
        }
    }
}
