// Standard input, read in blocks and handed out line by line. Std's `BufReader` is not used, since it takes
// its buffer of the heap.
ghost use Rattle.std.specs.Prelude.{◌≤◌, length};

use std::io;
use std::io::Read;

// The bytes of the block from `start` to `end` came, and were not handed out yet.
#[derive(Drop)]
pub(crate) struct Lines<'a, R> {
    input: R,
    block: &'a mut [u8],
    start: usize,
    end: usize,
    ghost ordered: { start ≤ end },
    ghost inside: { end ≤ length block.now },
}

impl<'a, R: Read + Drop> Lines<'a, R> {
    pub(crate) fn new(input: R, block: &'a mut [u8]) -> Lines<'a, R> {
        Lines {
            input,
            block,
            start: 0,
            end: 0,
        }
    }

    // Reads the next line into a buffer, without its newline; None at the end of the input. The last
    // line may lack its newline. A line that the buffer cannot hold comes as an empty one, which is as
    // bad. It counts its turns as `answer_all` does.
    pub(crate) fn next_line<'l>(
        &mut self,
        buffer: &'l mut [u8],
    ) -> io::Result<Option<&'l mut [u8]>> {
        let mut length = 0usize;
        for _ in 0..u64::MAX {
            if self.start == self.end {
                self.start = 0;
                self.end = 0;
                self.end = self.input.read(self.block)?;
                if self.end == 0 {
                    if length == 0 {
                        return Ok(None);
                    }
                    break;
                }
            }
            let came = &self.block[self.start..self.end];
            let newline = came.iter().position(|byte| *byte == b'\n');
            let piece = &came[..newline.unwrap_or(came.len())];
            let longer = length.saturating_add(piece.len());
            if let Some(room) = buffer.get_mut(length..longer) {
                room.copy_from_slice(piece);
            }
            length = longer;
            self.start += piece.len();
            if newline.is_some() {
                self.start += 1;
                break;
            }
        }
        Ok(Some(buffer.get_mut(..length).unwrap_or_default()))
    }
}
