//! A source in memory, which fails at the reads that it was told.

ghost use Rattle.std.specs.Prelude.{◌≡◌, ◌≤◌, [], ◌∷◌, ◌++◌, Some, IfOk, IfErr, option_map, vec_len};
ghost use Rattle.asp_edge.specs.Causes.{Rose, IsContent, IsLonger, FailedOnly, TakesOneMore, answered, is_failed, next_number, counted};
ghost use Rattle.asp_edge.specs.MemorySource.{content_of, memory_told, told_content, source_asked, source_faults, failing_reads, next_read, read_fails};

use crate::{Ask, Asked, ReadError, Source};
use asp_model::Word;
use std::alloc::Global;

/// Files in memory, by their names. Where two have one name, the first counts.
#[derive(Drop)]
pub struct MemorySource {
    alloc: Global,
    files: Vec<(Word, Vec<u8>)>,
    failing: Vec<u64>,
    reads: u64,
    asked: Asked,
    faults: u64,
}

impl MemorySource {
    /// A source of these files. The reads are numbered from 1, and those in `failing` fail.
    pub fn new(alloc: Global, files: Vec<(Word, Vec<u8>)>, failing: Vec<u64>) -> MemorySource
        ensures content { told_content result ≡ content_of files.items }
        ensures failing { failing_reads result ≡ failing.items }
        ensures first { next_read result ≡ 1 }
        ensures asked { source_asked result ≡ [] }
        ensures faults { source_faults result ≡ 0 }
    {
        MemorySource {
            alloc,
            files,
            failing,
            reads: 0,
            asked: Asked::new(),
            faults: 0,
        }
    }

    // What the next read answers.
    fn answer(&self, name: &str, most: usize) -> Result<Vec<u8>, ReadError>
        ensures failed { is_failed result ≡ read_fails self.now name.now }
        ensures bytes { IfOk result (λ v. told_content self.now name.now ≡ Some v.items) }
        ensures short { IfOk result (λ v. vec_len v ≤ most) }
        ensures long { IfErr result (IsLonger (told_content self.now name.now) most) }
        ensures taken { IfErr result (TakesOneMore most) }
    {
        if self.failing.contains(&self.reads.saturating_add(1)) {
            return Err(ReadError::Failed);
        }
        let Some(content) = find(&self.files, name) else {
            return Err(ReadError::Failed);
        };
        if content.len() > most {
            return Err(ReadError::TooLong { taken: most + 1 });
        }
        match content.to_vec(self.alloc) {
            Ok(bytes) => Ok(bytes),
            Err(_) => Err(ReadError::Memory),
        }
    }
}

// The content under a name.
fn find<'a>(files: &'a [(Word, Vec<u8>)], name: &str) -> Option<&'a Vec<u8>>
    ensures { option_map (λ v. v.now.items) result ≡ content_of files.now name.now }
{
    for i in 0..files.len() {
        let file = &files[i];
        if file.0.as_str() == name {
            return Some(&file.1);
        }
    }
    None
}

impl Source for MemorySource {
    ghost told = { memory_told };

    fn read(&mut self, name: &str, most: usize) -> Result<Vec<u8>, ReadError>
        ensures same { told_content self.new ≡ told_content self.old }
        ensures bytes { IfOk result (λ v. IsContent (told_content self.old name.now) v.items) }
        ensures short { IfOk result (λ v. vec_len v ≤ most) }
        ensures long { IfErr result (IsLonger (told_content self.old name.now) most) }
        ensures asked { source_asked self.new
            ≡ source_asked self.old ++ (name.now, answered result) ∷ [] }
        ensures later { source_faults self.old ≤ source_faults self.new }
        ensures cause { IfErr result
            (FailedOnly (Rose (source_faults self.old) (source_faults self.new))) }

        // It fails exactly where it was told to, and at a name that it does not have.
        ensures failed { is_failed result ≡ read_fails self.old name.now }
        ensures counted { source_faults self.new
            ≡ counted (read_fails self.old name.now) (source_faults self.old) }
        ensures taken { IfErr result (TakesOneMore most) }
        ensures failing { failing_reads self.new ≡ failing_reads self.old }
        ensures next { next_read self.new ≡ next_number (next_read self.old) }
    {
        let answer = self.answer(name, most);
        self.asked = self.asked.with(&Ask {
            name,
            answer: &answer,
        });
        self.reads = self.reads.saturating_add(1);
        if let Err(ReadError::Failed) = answer {
            self.faults = self.faults.saturating_add(1);
            return Err(ReadError::Failed);
        }
        answer
    }
}
