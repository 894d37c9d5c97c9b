//! The program: standard input, output and error around the top call.
#![tactic(auto)]

ghost use Rattle.std.specs.Prelude.{◌≡◌, IfErr, IfOk};

use insar_ports::{StdSink, StdSource};
use insar_top::{insar, starved};
use std::alloc::{AllocError, Global};
use std::env::{Env, FillError};
use std::io::{Read, Write};
use std::process::ExitCode;
use std::sync::Wait;
use std::thread::Threads;
use std::{env, io};
use tile_workers::OpenGate;

/// The arguments after the program's name, which is not a word and may have any bytes.
#[derive(Drop)]
struct Arguments<'a> {
    rt: &'a HostRuntime,
}

impl Env for Arguments<'_> {
    fn arg(&self, word: usize, buf: &mut [u8]) -> Result<usize, FillError> {
        match word.checked_add(1) {
            Some(argument) => self.rt.arg(argument, buf),
            None => Err(FillError::NotPresent),
        }
    }

    fn var(&self, name: &str, buf: &mut [u8]) -> Result<usize, FillError> {
        self.rt.var(name, buf)
    }

    fn var_at(&self, place: usize, buf: &mut [u8]) -> Result<usize, FillError> {
        self.rt.var_at(place, buf)
    }
}

/// The words after the program's name.
fn words(rt: &HostRuntime) -> io::Result<Vec<String>> {
    let arguments = (Arguments { rt }, rt.alloc());
    Ok(env::args(&arguments)?.collect(rt.alloc())?)
}

/// The words as the top call takes them.
fn borrowed<'a>(alloc: Global, words: &'a [String]) -> Result<Vec<&'a str>, AllocError> {
    let mut texts = Vec::with_capacity(alloc, words.len())?;
    for word in words {
        texts.push(word.as_str())?;
    }
    Ok(texts)
}

/// The status of the top call over standard streams.
fn run<R: Threads + Wait + Sync, I: Read + Drop, O: Write + Drop, E: Write + Drop>(
    rt: &R,
    alloc: Global,
    words: &[String],
    input: I,
    output: O,
    errors: E,
) -> io::Result<u8> {
    let texts = borrowed(alloc, words)?;
    let mut source = StdSource::new(input);
    let mut sink = StdSink::new(output);
    let mut diag = StdSink::new(errors);
    Ok(insar(
        rt,
        alloc,
        &texts,
        &mut source,
        &mut sink,
        &mut diag,
        &OpenGate,
    ))
}

/// The exit status of what was done. If there was no memory for the words, the line that says so is put.
fn status(rt: &HostRuntime, done: io::Result<u8>) -> u8
    ensures done { IfOk done (λ status. result ≡ status) }
    ensures starved { IfErr done (λ error. result ≡ 4) }
{
    match done {
        Ok(status) => status,
        Err(_) => starved(&mut StdSink::new(rt.stderr().lock())),
    }
}

fn main(rt: HostRuntime) -> ExitCode {
    let words = match words(&rt) {
        // Words that are not UTF-8 are handed on as none, which the top call refuses.
        Err(error) if error.kind() == io::ErrorKind::InvalidData => Ok(Vec::new(rt.alloc())),
        words => words,
    };
    let done = match words {
        Ok(words) => run(
            &rt,
            rt.alloc(),
            &words,
            rt.stdin().lock(),
            rt.stdout().lock(),
            rt.stderr().lock(),
        ),
        Err(error) => Err(error),
    };
    ExitCode::from(status(&rt, done))
}
