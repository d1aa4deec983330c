// The dictionary program: reads its three files, lists, prints. What it prints is `listing`'s promise.
#![tactic(auto)]

ghost use Rattle.std.specs.Prelude.{◌≡◌, ◌≤◌, length, take};

use listing::listing;
use std::io::{Read, Write};
use std::rt::Files;
use std::{fs, io};

// As much of the file as buf holds: until it is full, the file ends or a read fails. A `while`, since a read gives as many bytes as it will.
fn fill<F: Read>(file: &mut F, buf: &mut [u8]) -> usize
    ensures fits { result ≤ length buf.new }
    ensures prefix { result ≡ length (take result buf.new) }
{
    let mut done = 0;
    while done < buf.len() {
        match file.read(&mut buf[done..]) {
            Ok(0) => break,
            Ok(n) => done += n,
            Err(_) => break,
        }
    }
    done
}

// As much of the file as buf holds; a file that is absent reads as empty.
fn load<R: Files>(rt: &R, path: &str, buf: &mut [u8]) -> usize
    ensures fits { result ≤ length buf.new }
    ensures prefix { result ≡ length (take result buf.new) }
{
    match fs::open(rt, path) {
        Ok(mut file) => fill(&mut file, buf),
        Err(_) => 0,
    }
}

// Prints what belongs to a circuit, faults and patterns.
fn print<R: Print>(rt: &R, circuit: &[u8], faults: &[u8], patterns: &[u8]) -> io::Result<()> {
    let mut table = [2u8; 65536];
    let mut out = [0u8; 71680];
    let n = listing(circuit, faults, patterns, &mut table, &mut out);
    io::writer(rt).write_all(&out[..n])
}

// Reads the files, each at most one byte above its limit, and prints.
pub fn run<R: Files + Print>(rt: &R) -> io::Result<()> {
    let mut circuit = [0u8; 16385];
    let mut faults = [0u8; 2049];
    let mut patterns = [0u8; 16385];
    let c = load(rt, "circuit.rec", &mut circuit);
    let f = load(rt, "faults.rec", &mut faults);
    let p = load(rt, "patterns.rec", &mut patterns);
    print(rt, &circuit[..c], &faults[..f], &patterns[..p])
}
