// Lines of a file that is read in large pieces.
ghost use Rattle.std.specs.Prelude.{◌≤◌, length, IfOk, IfSome, IfErr};
ghost use Rattle.office.specs.Parts.{Within};

use std::io;
use std::io::{ErrorKind, Seek, SeekFrom};
use text::{gather, line_end};

// How much of a file is read at once.
pub const PIECE: usize = 65536;

// A file, and what was read of it and not yet taken: the bytes of a piece from `at` to `end`. The piece is an array and no `BufReader`, since a program of the
// gateway has no heap.
#[derive(Drop)]
pub struct Lines<R> {
    reader: R,
    piece: [u8; PIECE],
    at: usize,
    end: usize,
    // the reader came to its end, and is not asked again
    over: bool,
    ghost within: { Within 65536 at end },
}

// What a piece brought of a line: how many bytes of it are there then, and whether its end came. The bytes are counted in both cases, so that this is no
// Option.
#[derive(Clone, Copy, Debug, PartialEq, Eq)]
struct Part {
    have: usize,
    ended: bool,
}

// A line could not be read to its end: how many bytes of it are there, and why.
#[derive(Drop)]
pub struct CutShort {
    pub have: usize,
    pub why: io::Error,
}

impl<R: io::Read> Lines<R> {
    pub fn new(reader: R) -> Lines<R> {
        Lines {
            reader,
            piece: [0; PIECE],
            at: 0,
            end: 0,
            over: false,
        }
    }

    // Whether something was read that is not yet taken.
    pub fn holds_more(&self) -> bool {
        self.at < self.end
    }

    // Reads the next piece where nothing is left of the one before, and says whether there is something to take.
    fn fill(&mut self) -> io::Result<bool> {
        if self.at < self.end {
            return Ok(true);
        }
        if self.over {
            return Ok(false);
        }
        self.at = 0;
        self.end = 0;
        self.end = self.reader.read(&mut self.piece)?;
        self.over = self.end == 0;
        Ok(!self.over)
    }

    // Takes the bytes of a line behind those that are there, or as many as there is room for.
    fn take(&mut self, line: &mut [u8], have: usize) -> Part
        requires { have ≤ length line.old }
        ensures { result.have ≤ length line.old }
    {
        let stop = line_end(&self.piece[..self.end], self.at);
        let have = gather(line, line.len(), have, &self.piece[self.at..stop]);
        let ended = stop < self.end;
        self.at = if ended { stop + 1 } else { self.end };
        Part { have, ended }
    }

    // Brings the next line into a buffer, or as much of it as there is room for, and says how many bytes that are. A line that fills the buffer is read
    // to its end. The last line needs no 0A, and is none if it is empty.
    pub fn next(&mut self, line: &mut [u8]) -> Result<Option<usize>, CutShort>
        ensures line_fits { IfOk result (λ next. IfSome next (λ n. n ≤ length line.old)) }
        ensures part_fits { IfErr result (λ e. e.have ≤ length line.old) }
    {
        let mut have = 0;
        // nothing says that a file ends: the reads are counted
        for _ in 0..u64::MAX {
            match self.fill() {
                Ok(true) => {}
                Ok(false) if have == 0 => return Ok(None),
                Ok(false) => return Ok(Some(have)),
                Err(why) => return Err(CutShort { have, why }),
            }
            let part = self.take(line, have);
            if part.ended {
                return Ok(Some(part.have));
            }
            have = part.have;
        }
        let why = io::Error::from(ErrorKind::TimedOut);
        Err(CutShort { have: 0, why })
    }

    // Brings the first line into a buffer, or as much of it as there is room for, and reads no further than that.
    pub fn first(&mut self, line: &mut [u8]) -> io::Result<usize>
        ensures { IfOk result (λ n. n ≤ length line.old) }
    {
        let mut have = 0;
        // nothing says that a file ends: the reads are counted
        for _ in 0..u64::MAX {
            if !self.fill()? {
                return Ok(have);
            }
            let part = self.take(line, have);
            if part.ended || part.have == line.len() {
                return Ok(part.have);
            }
            have = part.have;
        }
        Err(io::Error::from(ErrorKind::TimedOut))
    }
}

impl<R: Seek> Lines<R> {
    // Goes back to the first line.
    pub fn rewind(&mut self) -> io::Result<()> {
        self.reader.seek(SeekFrom::Start(0))?;
        self.at = 0;
        self.end = 0;
        self.over = false;
        Ok(())
    }
}
