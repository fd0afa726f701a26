//! Tests of what no clause says, and callers through the traits.
ghost use Rattle.std.specs.Prelude.{◌≡◌, ◌<◌, ℕ, OnOk, OnErr, IfOk, List, ◌++◌, MatchBool, Some, length};
ghost use Rattle.cmp_outside.specs.Faults.{Rose};
ghost use Rattle.cmp_outside.specs.Source.{IfTold, OnFailed, OnTooLong};
ghost use Rattle.cmp_outside.specs.Sink.{Gains, GainsPrefix};

use cmp_outside::{
    MemFile, MemFiles, MemSink, ReadEnd, RealFiles, RealOut, Sink, Source, WriteFailed,
};
use std::alloc::{AllocError, Global};
use std::cell::Cell;
use std::fmt::Display;
use std::io::ErrorKind;
use std::test::Fail;
use std::{env, fs, io, process};

/// Writes two pieces.
#[tactic(auto, using(cmp_outside::specs::Sink::gains))]
fn write_two<K: Sink>(out: &mut K, first: &[u8], second: &[u8]) -> Result<(), WriteFailed>
    ensures ok { OnOk result (Gains (K.written out.old) (K.written out.new) (first.now ++ second.now)) }
    ensures count { OnOk result (K.faults out.new ≡ K.faults out.old) }
    ensures failed { OnErr result (Rose (K.faults out.old) (K.faults out.new)) }
    ensures prefix { OnErr result (GainsPrefix (K.written out.old) (K.written out.new) (first.now ++ second.now)) }
{
    out.write(first)?;
    out.write(second)?;
    Ok(())
}

/// Writes one file after another, and answers whether the sink took them.
#[tactic(auto, using(cmp_outside::specs::Sink::gains))]
fn copy<S: Source, K: Sink>(
    alloc: Global,
    files: &mut S,
    out: &mut K,
    first: &str,
    second: &str,
    limit: u64,
) -> Result<bool, ReadEnd>
    ensures copied { IfOk result (λ whole.
        IfTold (S.told files.old first.now) (λ a. IfTold (S.told files.old second.now) (λ b.
        MatchBool whole
        (Gains (K.written out.old) (K.written out.new) (a ++ b))
        (GainsPrefix (K.written out.old) (K.written out.new) (a ++ b))))) }
    ensures not_copied { IfOk result (λ whole. MatchBool whole (K.faults out.new ≡ K.faults out.old)
        (Rose (K.faults out.old) (K.faults out.new))) }
    ensures not_read { OnFailed result (Rose (S.faults files.old) (S.faults files.new)) }
    ensures nothing { OnErr result (K.written out.new ≡ K.written out.old) }
{
    let a = files.read_file(alloc, first, limit)?;
    let b = match files.read_file(alloc, second, limit) {
        Ok(bytes) => bytes,
        Err(ReadEnd::Failed) => return Err(ReadEnd::Failed),
        Err(ReadEnd::TooLong) => return Err(ReadEnd::TooLong),
        Err(ReadEnd::Memory) => return Err(ReadEnd::Memory),
    };
    match write_two(out, a.as_slice(), b.as_slice()) {
        Ok(()) => Ok(true),
        Err(_) => Ok(false),
    }
}

fn file(alloc: Global, name: &str, bytes: &[u8]) -> Result<MemFile, AllocError> {
    let name = String::from_str(alloc, name)?;
    let bytes = Vec::from_slice(alloc, bytes)?;
    Ok(MemFile { name, bytes })
}

/// Two files of the name `a` and an empty one of the name `b`; the second call fails.
fn some_files(alloc: Global) -> Result<MemFiles, AllocError> {
    let mut files = Vec::new(alloc);
    files.push(file(alloc, "a", b"xyz")?)?;
    files.push(file(alloc, "a", b"other")?)?;
    files.push(file(alloc, "b", b"")?)?;
    let failing = Vec::from_slice(alloc, &[2])?;
    Ok(MemFiles::make(alloc, files, failing))
}

#[test]
fn reads_memory(rt: HostRuntime) -> Result<(), Fail> {
    let mut files = some_files(rt.alloc())?;
    for (name, limit, want) in [
        ("a", 3, "Ok([120, 121, 122])"),
        ("a", 3, "Err(Failed)"),
        ("a", 2, "Err(TooLong)"),
        ("c", 9, "Err(Failed)"),
        ("b", 0, "Ok([])"),
    ] {
        let answer = files.read_file(rt.alloc(), name, limit);
        assert_eq!(rt;
            format!(in rt.alloc(); "{answer:?}")?.as_str(),
            want,
            "{name} {limit}"
        );
    }
    Ok(())
}

#[test]
fn writes_memory(rt: HostRuntime) -> Result<(), Fail> {
    let failing = Vec::from_slice(rt.alloc(), &[2])?;
    let mut out = MemSink::make(rt.alloc(), 5, failing)?;
    for (piece, want) in [
        ("abc", true),
        ("", false),
        ("def", false),
        ("de", true),
        ("", true),
    ] {
        assert_eq!(rt; out.write(piece.as_bytes()).is_ok(), want, "{piece}");
    }
    assert_eq!(rt; out.bytes(), b"abcde".as_slice());
    Ok(())
}

#[test]
fn copies(rt: HostRuntime) -> Result<(), Fail> {
    let failing = Vec::new(rt.alloc());
    let mut files = Vec::new(rt.alloc());
    files.push(file(rt.alloc(), "a", b"xyz")?)?;
    let mut files = MemFiles::make(rt.alloc(), files, failing);
    let mut out = MemSink::make(rt.alloc(), 9, Vec::new(rt.alloc()))?;
    assert!(rt; copy(rt.alloc(), &mut files, &mut out, "a", "a", 3)?);
    assert_eq!(rt; out.bytes(), b"xyzxyz".as_slice());
    assert!(rt; !copy(rt.alloc(), &mut files, &mut out, "a", "a", 3)?);
    assert_eq!(rt; out.bytes(), b"xyzxyzxyz".as_slice());
    Ok(())
}

/// The system's files: a long one, an empty one, an endless one, a directory, and a name that is
/// not there.
#[test]
fn reads_the_system(rt: HostRuntime) -> Result<(), Fail> {
    let mut files = RealFiles::make(&rt);
    let mut text = Vec::new(rt.alloc());
    for k in 0..20000u32 {
        text.push((k % 251) as u8)?;
    }
    let folder = env::temp_dir(&rt)?;
    let id = process::id(rt.process());
    let path = format!(in rt.alloc(); "{}/cmp_outside_{id}", folder.display())?;
    fs::write(&rt, path.as_str(), text.as_slice())?;
    let whole = files.read_file(rt.alloc(), path.as_str(), 20000)?;
    assert!(rt; whole.as_slice() == text.as_slice());
    for (name, limit, want) in [
        (path.as_str(), 19999, "Err(TooLong)"),
        ("/dev/null", 0, "Ok([])"),
        ("/dev/zero", 20000, "Err(TooLong)"),
        ("/", 9, "Err(Failed)"),
        ("/no/such/file", 9, "Err(Failed)"),
    ] {
        let answer = files.read_file(rt.alloc(), name, limit);
        assert_eq!(rt;
            format!(in rt.alloc(); "{answer:?}")?.as_str(),
            want,
            "{name}"
        );
    }
    fs::remove_file(&rt, path.as_str())?;
    let mut out = RealOut::make(&rt);
    assert!(rt;
        copy(
            rt.alloc(),
            &mut files,
            &mut out,
            "/dev/null",
            "/dev/null",
            0
        )?
    );
    Ok(())
}

/// An output that takes two digits at a time and in all as many as are left. A signal cuts each
/// other write short.
#[derive(Drop)]
struct Narrow {
    left: Cell<usize>,
    taken: Cell<u64>,
    cut: Cell<bool>,
}

impl Print for Narrow {
    fn print<D: Display + Drop>(&self, _value: D) -> io::Result<()> {
        Err(io::Error::from(ErrorKind::Unsupported))
    }

    fn println<D: Display + Drop>(&self, _value: D) -> io::Result<()> {
        Err(io::Error::from(ErrorKind::Unsupported))
    }

    fn write_all(&self, _bytes: &[u8]) -> io::Result<()> {
        Err(io::Error::from(ErrorKind::Unsupported))
    }

    fn write_some(&self, bytes: &[u8]) -> io::Result<usize> {
        self.cut.set(!self.cut.get());
        if self.cut.get() {
            return Err(io::Error::from(ErrorKind::Interrupted));
        }
        let left = self.left.get();
        let count = bytes.len().min(2).min(left);
        for digit in &bytes[..count] {
            let taken = self.taken.get().wrapping_mul(10);
            self.taken
                .set(taken.wrapping_add(u64::from(digit.saturating_sub(b'0'))));
        }
        self.left.set(left.saturating_sub(count));
        Ok(count)
    }
}

#[test]
fn writes_the_system(rt: HostRuntime) -> Result<(), Fail> {
    let mut out = RealOut::make(&rt);
    assert!(rt; out.write(b"a line\n").is_ok());
    let narrow = Narrow {
        left: Cell::new(5),
        taken: Cell::new(0),
        cut: Cell::new(false),
    };
    let mut out = RealOut::make(&narrow);
    for (piece, want, taken) in [("123", true, 123), ("", true, 123), ("456", false, 12345)] {
        assert_eq!(rt; out.write(piece.as_bytes()).is_ok(), want, "{piece}");
        assert_eq!(rt; narrow.taken.get(), taken, "{piece}");
    }
    Ok(())
}
