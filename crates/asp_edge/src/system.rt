//! The files and the standard streams of the system. They count each fault of the system.

ghost use Rattle.std.specs.Prelude.{◌≡◌, ◌≤◌, ◌<◌, ◌^◌, ◌-◌, ◌+◌, [], ◌++◌, IfOk, IfErr, length, take, vec_len};
ghost use Rattle.std.specs.Io.KnownBytes as known;
ghost use Rattle.asp_edge.specs.Causes.{IsContent, IsLonger, TakesOneMore, is_failed};
ghost use Rattle.asp_edge.specs.System.{file_faults, files_asked, files_told, stream_of, stream_faults, stream_taken, stream_told};

use crate::{Ask, Asked, Piece, ReadError, Sink, Source, Taken, WriteFailed};
use std::alloc::Global;
use std::fs;
use std::io::{Read, Stderr, Stdout, Write};
use std::rt::Files;

/// The bytes that one call of the system is asked for, at most.
const BUFFER: usize = 4096;

/// The files of the system, by their paths. It tells no content, but what was asked
/// of it. A path that cannot be opened, a
/// folder and a file that cannot be read are faults.
#[derive(Drop)]
pub struct FileSource<'a, R: Files + AllocGlobal> {
    rt: &'a R,
    asked: Asked,
    faults: u64,
}

impl<'a, R: Files + AllocGlobal> FileSource<'a, R> {
    /// The files that this runtime opens.
    pub fn new(rt: &'a R) -> FileSource<'a, R>
        ensures asked { files_asked result ≡ [] }
        ensures faults { file_faults result ≡ 0 }
    {
        FileSource {
            rt,
            asked: Asked::new(),
            faults: 0,
        }
    }

    // The bytes of a file. A failure is still to be counted.
    fn read_file(&self, name: &str, most: usize) -> Result<Vec<u8>, ReadError>
        ensures short { IfOk result (λ v. vec_len v ≤ most) }
        ensures taken { IfErr result (TakesOneMore most) }
    {
        let Ok(mut file) = fs::open(self.rt, name) else {
            return Err(ReadError::Failed);
        };
        read_all(self.rt.alloc(), &mut file, most)
    }
}

// All bytes that a reader has left. No more than one byte past the most is taken.
fn read_all<T: Read>(alloc: Global, file: &mut T, most: usize) -> Result<Vec<u8>, ReadError>
    ensures bytes { IfOk result (λ v. IsContent (T.remaining file.old) v.items) }
    ensures short { IfOk result (λ v. vec_len v ≤ most) }
    ensures long { IfErr result (IsLonger (T.remaining file.old) most) }
    ensures taken { IfErr result (TakesOneMore most) }
{
    let mut bytes = Vec::new(alloc);
    let mut buffer = [0u8; BUFFER];
    loop {
        let left = most - bytes.len();
        let chunk = &mut buffer[..left.saturating_add(1).min(BUFFER)];
        let Ok(count) = file.read(chunk) else {
            return Err(ReadError::Failed);
        };
        if count == 0 {
            return Ok(bytes);
        }
        if count > left {
            return Err(ReadError::TooLong { taken: most + 1 });
        }
        if bytes.extend_from_slice(&chunk[..count]).is_err() {
            return Err(ReadError::Memory);
        }
    }
}

impl<'a, R: Files + AllocGlobal> Source for FileSource<'a, R> {
    ghost told = { λ s. files_told s };

    fn read(&mut self, name: &str, most: usize) -> Result<Vec<u8>, ReadError> {
        let answer = self.read_file(name, most);
        self.asked = self.asked.with(&Ask {
            name,
            answer: &answer,
        });
        if let Err(ReadError::Failed) = answer {
            self.faults = self.faults.saturating_add(1);
            return Err(ReadError::Failed);
        }
        answer
    }
}

/// A stream of bytes. It tells what it took, and what its writer tells; a standard stream tells
/// nothing. A writer that takes nothing of a piece that is not empty is at fault.
#[derive(Drop)]
pub struct StdSink<W: Write> {
    stream: W,
    taken: Taken,
    faults: u64,
}

impl StdSink<Stdout> {
    /// Standard output.
    pub fn out(rt: &HostRuntime) -> StdSink<Stdout>
        ensures taken { stream_taken result ≡ [] }
        ensures faults { stream_faults result ≡ 0 }
    {
        StdSink::over(rt.stdout())
    }
}

impl StdSink<Stderr> {
    /// Standard error.
    pub fn err(rt: &HostRuntime) -> StdSink<Stderr>
        ensures taken { stream_taken result ≡ [] }
        ensures faults { stream_faults result ≡ 0 }
    {
        StdSink::over(rt.stderr())
    }
}

impl<W: Write> StdSink<W> {
    /// A sink over a stream, with no fault so far.
    pub fn over(stream: W) -> StdSink<W>
        ensures stream { stream_of result ≡ stream }
        ensures taken { stream_taken result ≡ [] }
        ensures faults { stream_faults result ≡ 0 }
    {
        StdSink {
            stream,
            taken: Taken::new(),
            faults: 0,
        }
    }

    // How many bytes the stream takes now: none at a fault.
    fn take_some(&mut self, rest: &[u8]) -> usize
        ensures within { result ≤ length rest.now }
        ensures taken { stream_taken self.new ≡ stream_taken self.old ++ take result rest.now }
        ensures appended { known.Appends (W.contents (stream_of self.old))
            (W.contents (stream_of self.new)) (take result rest.now) }
        ensures faults { stream_faults self.new ≡ stream_faults self.old }
    {
        match self.stream.write(rest) {
            Ok(count) => {
                self.taken = self.taken.with(&Piece {
                    bytes: &rest[..count],
                });
                count
            }
            Err(_) => 0,
        }
    }
}

impl<W: Write> Sink for StdSink<W> {
    ghost told = { λ s. stream_told (W.contents (stream_of s)) s };

    fn write(&mut self, piece: &[u8]) -> Result<(), WriteFailed> {
        let mut done = 0;
        while done < piece.len() {
            let count = self.take_some(&piece[done..]);
            if count == 0 {
                self.faults = self.faults.saturating_add(1);
                return Err(WriteFailed);
            }
            done += count;
        }
        Ok(())
    }
}
