//! What was answered, as one digest: FNV-1a of 64 bits, which takes little time beside the answers.
use replay::{Refusal, Verdict, verdict_text};
use std::alloc::{AllocError, Global};

const OFFSET: u64 = 0xcbf2_9ce4_8422_2325;

const PRIME: u64 = 0x100_0000_01b3;

/// The answers so far.
#[derive(Drop)]
pub struct Results {
    alloc: Global,
    digest: u64,
    /// The last answer's first line.
    first_line: String,
    /// Memory was refused for one of them.
    is_lost: bool,
}

impl Results {
    pub fn new(alloc: Global) -> Results {
        Results {
            alloc,
            digest: OFFSET,
            first_line: String::new(alloc),
            is_lost: false,
        }
    }

    /// One more answer.
    pub fn take(&mut self, answer: Result<Vec<u8>, Refusal>) {
        match answer {
            Ok(text) => self.put(text.as_slice()),
            Err(refusal) => self.take_refusal(refusal),
        }
    }

    pub fn take_verdict(&mut self, answer: Result<Verdict, Refusal>) {
        match answer {
            Ok(verdict) => {
                let text = verdict_text(self.alloc, verdict);
                self.put_line(text);
            }
            Err(refusal) => self.take_refusal(refusal),
        }
    }

    fn take_refusal(&mut self, refusal: Refusal) {
        let text = format!(in self.alloc; "{refusal}\n");
        self.put_line(text);
    }

    fn put_line(&mut self, text: Result<String, AllocError>) {
        match text {
            Ok(text) => self.put(text.as_bytes()),
            Err(_) => self.is_lost = true,
        }
    }

    fn put(&mut self, text: &[u8]) {
        for byte in text {
            self.digest = (self.digest ^ u64::from(*byte)).wrapping_mul(PRIME);
        }
        let first = text.split(|byte| *byte == b'\n').next().unwrap_or_default();
        match String::from_utf8_lossy(self.alloc, first) {
            Ok(line) => self.first_line = line,
            Err(_) => self.is_lost = true,
        }
    }

    /// The digest of all answers, and the first line of the last; none where memory was refused.
    pub fn told(self) -> Option<String> {
        if self.is_lost {
            return None;
        }
        let digits = hex::encode(self.alloc, &self.digest.to_be_bytes()).ok()?;
        let first_line = self.first_line;
        format!(in self.alloc; "{digits} {first_line}").ok()
    }
}
