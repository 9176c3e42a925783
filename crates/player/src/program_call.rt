// The program over its arguments, a source and a sink.
ghost use Rattle.std.specs.Prelude.{◌≡◌, drop, IfOk};
ghost use Rattle.std.specs.Process.{exit_status};
ghost use Rattle.std.specs.Vec.Iter.{into_iter_items};
ghost use Rattle.player.specs.Arguments.{words_behind};
ghost use Rattle.player.specs.Serves.{Serves};

use crate::top;
use link_io::{Sink, Source, StdSink, StdSource};
use std::alloc::{AllocError, Global};
use std::env::{self, Args, Env};
use std::io;
use std::process::ExitCode;

/// The status of a run that was refused memory.
const NO_MEMORY: u8 = 5;

/// The program: it does what the arguments behind the first, which is its name, ask `top` for, and ends with the status
/// that `top` answers. Where the arguments can't be read, they ask for nothing.
pub fn program<S: Source, K: Sink>(
    alloc: Global,
    args: io::Result<Args>,
    src: &mut S,
    out: &mut K,
) -> ExitCode
    ensures { Serves S.left S.faults S.can_fail K.written K.faults K.can_fail
        (words_behind args) (exit_status result) src.old src.new out.old out.new }
{
    ExitCode::from(status(alloc, args, src, out))
}

/// The program over the arguments, the standard input and the standard output that a runtime gives.
pub fn standard_program<R: Env + Input + Print + AllocGlobal>(rt: &R) -> ExitCode {
    let mut source = StdSource::new(rt.reader());
    let mut sink = StdSink::new(io::writer(rt));
    program(rt.alloc(), env::args(rt), &mut source, &mut sink)
}

fn status<S: Source, K: Sink>(alloc: Global, args: io::Result<Args>, src: &mut S, out: &mut K) -> u8
    ensures { Serves S.left S.faults S.can_fail K.written K.faults K.can_fail
        (words_behind args) result src.old src.new out.old out.new }
{
    match args {
        Ok(args) => match words_of(alloc, args) {
            Ok(words) => top(alloc, &words, src, out),
            Err(_) => NO_MEMORY,
        },
        Err(error) if matches!(error.kind(), io::ErrorKind::OutOfMemory) => NO_MEMORY,
        Err(_) => top(alloc, &[], src, out),
    }
}

/// The words behind the program's name.
fn words_of(alloc: Global, mut args: Args) -> Result<Vec<String>, AllocError>
    ensures { IfOk result (λ words. words.items ≡ drop 1 (into_iter_items args)) }
{
    args.next();
    args.collect(alloc)
}
