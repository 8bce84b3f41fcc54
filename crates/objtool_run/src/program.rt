//! The whole program, over any host.

ghost use Rattle.std.specs.Prelude.{◌≡◌, ◌≢◌, ◌+◌, ◌-◌, ◌<◌, ◌≤◌, ◌↔◌, map, string_bytes, Some, IfSome, IfOk, IfErr, OnOk, IsErrOf};
ghost use Rattle.byte_core.specs.Count.{risen, last_count};
ghost use Rattle.byte_core.specs.Outside.{Outside};
ghost use Rattle.objtool_run.specs.Asked.{asked, IsInRange};
ghost use Rattle.objtool_run.specs.Words.{request_of};
ghost use Rattle.objtool_run.specs.Fault.{fixed_text};
ghost use Rattle.objtool_run.specs.Run.{Explains, IsOutput, IsTaken, IsLong, IsJudged, IsOfResponse};
ghost use Rattle.objtool_run.specs.Ends.{Ends, ReadsRose, ReadsAlone, Refuses, Tells, status_of};

use crate::build::{answer, built_file};
use crate::fat::{extracted_slice, joined_files};
use crate::fault::Fault;
use crate::generated::summary_line;
use crate::input::{INPUT_LIMIT, read_input};
use crate::names::name_line;
use crate::output::{write_fault_text, write_output};
use crate::place::placed_lines;
use crate::query::ask;
use crate::reading::image_line;
use crate::words::{Request, request_of};
use byte_core::Host;
use std::alloc::Global;

/// The output of a request, over the host's input where it has one.
#[tactic(auto, using(crate::proofs::Alone::alone, crate::proofs::Alone::alone_input, crate::proofs::Alone::alone_files))]
fn respond<H: Host>(alloc: Global, request: Request<'_>, host: &mut H) -> Result<Vec<u8>, Fault>
    requires { IsInRange (asked request) }
    ensures ok { IfOk result (λ text. IsOutput (asked request.entry) (H.outside host.old) text.items) }
    ensures end { OnOk result (IsTaken (asked request.entry) (H.outside host.new)) }
    ensures explained { IfErr result (λ fault. Explains (asked request.entry) (H.outside host.old) fault) }
    ensures judged { IfErr result (λ fault. IsJudged fault → IsTaken (asked request.entry) (H.outside host.new)) }
    ensures of_response { IfErr result (λ fault. IsOfResponse fault) }
    ensures reading { IsErrOf result Fault.ReadFailed → ReadsRose (H.outside host.old) (H.outside host.new) }
    ensures too_long { (H.outside host.new).taken < last_count
        → (IsErrOf result Fault.TooLong ↔ (INPUT_LIMIT < (H.outside host.new).taken - (H.outside host.old).taken)) }
    ensures long { IsErrOf result Fault.TooLong → IsLong (asked request.entry) (H.outside host.old) }
    ensures at_most { (H.outside host.new).taken ≤ risen (H.outside host.old).taken (INPUT_LIMIT + 1) }
    ensures others { ReadsAlone (H.outside host.old) (H.outside host.new) }
{
    match request {
        Request::Build => {
            let input = match read_input(alloc, host) {
                Ok(input) => input,
                Err(error) => return Err(Fault::from(error)),
            };
            answer(alloc, &input)
        }
        Request::Raw => {
            let input = match read_input(alloc, host) {
                Ok(input) => input,
                Err(error) => return Err(Fault::from(error)),
            };
            built_file(alloc, &input)
        }
        Request::Read => {
            let input = match read_input(alloc, host) {
                Ok(input) => input,
                Err(error) => return Err(Fault::from(error)),
            };
            image_line(alloc, &input)
        }
        Request::Ask(query) => {
            let input = match read_input(alloc, host) {
                Ok(input) => input,
                Err(error) => return Err(Fault::from(error)),
            };
            ask(alloc, query, &input)
        }
        Request::Place => {
            let input = match read_input(alloc, host) {
                Ok(input) => input,
                Err(error) => return Err(Fault::from(error)),
            };
            placed_lines(alloc, &input)
        }
        Request::Extract(name) => {
            let input = match read_input(alloc, host) {
                Ok(input) => input,
                Err(error) => return Err(Fault::from(error)),
            };
            extracted_slice(alloc, &input, name)
        }
        Request::Join(paths) => joined_files(alloc, paths, host),
        Request::Gen { seed, count } => summary_line(alloc, seed, count),
        Request::Names { machine, number } => match name_line(alloc, machine, number) {
            Ok(text) => Ok(text),
            Err(_) => Err(Fault::OutOfMemory),
        },
    }
}

/// Writes the output of the request that the words name.
fn work<H: Host>(alloc: Global, words: &[String], host: &mut H) -> Result<(), Fault>
    ensures ends { Ends (map string_bytes words.now) (H.outside host.old) (H.outside host.new) (status_of result) }
    ensures explained { IfErr result (λ fault. IfSome (request_of (map string_bytes words.now)) (λ request. Explains request (H.outside host.old) fault)) }
    ensures errors { (H.outside host.new).errors ≡ (H.outside host.old).errors }
    ensures err_faults { (H.outside host.new).err_faults ≡ (H.outside host.old).err_faults }
{
    let Some(request) = request_of(words) else {
        return Err(Fault::BadWords);
    };
    let text = match respond(alloc, request, host) {
        Ok(text) => text,
        Err(fault) => return Err(fault),
    };
    match write_output(host, &text) {
        Ok(()) => Ok(()),
        Err(_) => Err(Fault::WriteFailed),
    }
}

/// Does all that the program does, and answers its exit status, 0 to 7. The output takes what the
/// words ask for, and the fault text why there is none.
pub fn run<H: Host>(alloc: Global, words: &[String], host: &mut H) -> u8
    ensures ends { Ends (map string_bytes words.now) (H.outside host.old) (H.outside host.new) result }
    ensures refused { result ≡ 1 → IfSome (request_of (map string_bytes words.now)) (λ request. Refuses request (H.outside host.old) (H.outside host.new)) }
    ensures text { result ≢ 1 → Tells (fixed_text result) (H.outside host.old) (H.outside host.new) }
{
    match work(alloc, words, host) {
        Ok(()) => 0,
        Err(fault) => {
            let _ = write_fault_text(host, fault.text());
            fault.code()
        }
    }
}
