//! Says of a pixel why the leaves over it lie as they do.
#![tactic(auto)]

ghost use Rattle.std.specs.Prelude.{◌≡◌, ◌<◌, IfOk, drop, map, string_bytes};
ghost use Rattle.rd_run.specs.Endings.{number, stream};
ghost use Rattle.rd_why.specs.Endings.{Answers, Tells};
ghost use Rattle.rd_why.specs.Questions.{question_of};

mod after;
mod json;
mod lines;
mod program;
mod telling;
mod wording;
mod words;

use crate::program::run;
use crate::telling::tell_why;
use rd_geom::Steps;
use rd_io::{ReadSource, Sink, Source, WriteSink};
use rd_run::Status;
use std::alloc::{AllocError, Global};
use std::env;
use std::env::Args;
use std::io::ErrorKind;
use std::marker::Brand;
use std::process::ExitCode;
use std::sync::ledger::{Blank, Ledger};

/// The words after the program's name.
fn after_name(alloc: Global, mut args: Args) -> Result<Vec<String>, AllocError>
    ensures { IfOk result (λ words. words.items ≡ drop 1 args.rest.items) }
{
    args.next();
    let mut words = Vec::new(alloc);
    for word in args {
        words.push(word)?;
    }
    Ok(words)
}

/// Does all that the program does, with counters of its own.
fn run_counted<S: Source, O: Sink, E: Sink, A: Ledger, B: Ledger>(
    alloc: Global,
    words: &[String],
    source: &mut S,
    out: &mut O,
    err: &mut E,
    made: Blank,
    looks: Blank,
) -> u8
    requires made_name { made.name ≡ A.name }
    requires made_parts { made.parts ≡ A.parts }
    requires made_some { 0 < made.parts }
    requires looks_name { looks.name ≡ B.name }
    requires looks_parts { looks.parts ≡ B.parts }
    requires looks_some { 0 < looks.parts }

    ensures { Answers (source.new ≡ source.old) (out.new ≡ out.old)
        (stream (S.left source.old) (S.left source.new) (S.faults source.old) (S.faults source.new))
        (stream (O.written out.old) (O.written out.new) (O.faults out.old) (O.faults out.new))
        (stream (E.written err.old) (E.written err.new) (E.faults err.old) (E.faults err.new))
        (question_of (map string_bytes words.now)) result }
{
    let mut made = Steps::<A>::new(made);
    let mut looks = Steps::<B>::new(looks);
    run(alloc, words, source, out, err, &mut made, &mut looks)
}

/// Ends a run that had no memory for its words.
fn without_memory<E: Sink>(err: &mut E) -> u8
    ensures status { result ≡ number Status.NoMemory }
    ensures line { Tells (stream (E.written err.old) (E.written err.new) (E.faults err.old) (E.faults err.new)) Status.NoMemory }
{
    let status = Status::NoMemory;
    tell_why(err, status);
    status.number()
}

fn main(rt: HostRuntime) -> ExitCode {
    let alloc = rt.alloc();
    let mut source = ReadSource::new(rt.stdin());
    let mut out = WriteSink::new(rt.stdout());
    let mut err = WriteSink::new(rt.stderr());
    let words = match env::args(&rt) {
        Ok(args) => after_name(alloc, args),
        // A word that is no text is of no form, as no words are.
        Err(e) if e.kind() == ErrorKind::InvalidData => Ok(Vec::new(alloc)),
        Err(_) => Err(AllocError),
    };
    let made = Blank::new(1);
    let looks = Blank::new(1);
    let status = match words {
        Ok(words) => run_counted::<_, _, _, Brand, Brand>(
            alloc,
            &words,
            &mut source,
            &mut out,
            &mut err,
            made,
            looks,
        ),
        Err(_) => without_memory(&mut err),
    };
    ExitCode::from(status)
}
