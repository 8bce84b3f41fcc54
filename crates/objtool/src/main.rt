//! The program `objtool`: [`objtool_run::run`] over the process's own words, streams and files.
#![tactic(auto)]

use byte_core::StreamHost;
use objtool_run::run;
use std::env;
use std::process::ExitCode;

/// Words that can't be read count as words that name no command.
fn main(rt: HostRuntime) -> ExitCode {
    let mut words: Vec<String> = Vec::new(rt.alloc());
    if let Ok(arguments) = env::args(&rt) {
        for word in arguments.skip(1) {
            if words.push(word).is_err() {
                return ExitCode::from(5);
            }
        }
    }
    let mut host = StreamHost::new(rt, rt.stdin(), rt.stdout(), rt.stderr());
    ExitCode::from(run(rt.alloc(), &words, &mut host))
}
