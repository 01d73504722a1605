//! The top call.

ghost use Rattle.std.specs.Prelude.{map, string_bytes, length};
ghost use Rattle.std.specs.Process.{exit_status};
ghost use Rattle.std.specs.Option.{option_map};
ghost use Rattle.spu_tool.specs.Arguments.{asked_of};
ghost use Rattle.spu_tool.specs.Makes.{IsComplete};
ghost use Rattle.spu_tool.specs.Outcomes.{seen, Outcome, OutcomeOf, EndsWith, Puts, words_line};
ghost use Rattle.spu_tool.specs.declared.status.Status.TheVariants as Status;

use crate::arguments::{ParseFault, parse};
use crate::concluding::{conclude, put};
use crate::making::make;
use crate::reading::read_all;
use crate::request::Request;
use crate::status::{Status, status_number};
use spu_io::{FileFault, Files, Sink};
use std::alloc::Global;
use std::process::ExitCode;

/// Reads the files of a request, makes what it asks for, and writes and puts that.
fn carry_out<F: Files, S: Sink>(
    alloc: Global,
    request: Request<'_>,
    files: &mut F,
    out: &mut S,
) -> Status
    requires { IsComplete request.action (length (asked_of request).inputs) }
    ensures { Outcome (asked_of request.entry) result
        (seen (F.held files.old) (F.faults files.old) (F.last files.old)
        (S.written out.old) (S.faults out.old))
        (seen (F.held files.new) (F.faults files.new) (F.last files.new)
        (S.written out.new) (S.faults out.new)) }
{
    let Request {
        inputs,
        output,
        action,
    } = request;
    let names = inputs.as_slice();
    let contents = match read_all(alloc, files, names) {
        Ok(contents) => contents,
        Err(FileFault::Failed) => return Status::ReadFault,
        Err(FileFault::OutOfMemory) => return Status::OutOfMemory,
    };
    match make(alloc, action, names, contents.as_slice()) {
        Ok(made) => conclude(&made, output, files, out),
        Err(_) => Status::OutOfMemory,
    }
}

/// Puts the line of a faulty word.
fn put_fault<S: Sink>(alloc: Global, n: usize, out: &mut S) -> Status
    ensures { Puts Status.Words (words_line n) result
        (S.written out.old) (S.written out.new) (S.faults out.old) (S.faults out.new) }
{
    match format!(in alloc; "words {n}\n") {
        Ok(line) => put(Status::Words, line.as_bytes(), out),
        Err(_) => Status::OutOfMemory,
    }
}

/// Does what the words of a command line ask for, over these files and this sink, and answers how it ended.
pub fn tool<F: Files, S: Sink>(
    alloc: Global,
    words: &Vec<String>,
    files: &mut F,
    out: &mut S,
) -> Status
    ensures { OutcomeOf (map string_bytes words.now.items) result
        (seen (F.held files.old) (F.faults files.old) (F.last files.old)
        (S.written out.old) (S.faults out.old))
        (seen (F.held files.new) (F.faults files.new) (F.last files.new)
        (S.written out.new) (S.faults out.new)) }
{
    match parse(alloc, words) {
        Ok(request) => carry_out(alloc, request, files, out),
        Err(ParseFault::Faulty(n)) => put_fault(alloc, n, out),
        Err(ParseFault::OutOfMemory) => Status::OutOfMemory,
    }
}

/// Calls the tool with the words of a command line, None where there was no memory for them: how it ended, and what the
/// program ends with.
pub fn call<F: Files, S: Sink>(
    alloc: Global,
    words: &Option<Vec<String>>,
    files: &mut F,
    out: &mut S,
) -> (Status, ExitCode)
    ensures { EndsWith (option_map (λ w. map string_bytes w.items) words.now) result.0 (exit_status result.1)
        (seen (F.held files.old) (F.faults files.old) (F.last files.old)
        (S.written out.old) (S.faults out.old))
        (seen (F.held files.new) (F.faults files.new) (F.last files.new)
        (S.written out.new) (S.faults out.new)) }
{
    let status = match words {
        Some(words) => tool(alloc, words, files, out),
        None => Status::OutOfMemory,
    };
    (status, ExitCode::from(status_number(status)))
}
