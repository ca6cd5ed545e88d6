ghost use Rattle.ga_codec.specs.Steps.Grammar.{text, utf8};
ghost use Rattle.ga_codec.specs.Steps.Parts.{Reads};

use crate::CodecFault;
use crate::cursor::Cursor;
use crate::utf8::bytes_begun;
use ga_base::Text;
use std::alloc::Global;
use std::str::from_utf8;

impl<'a> Cursor<'a> {
    /// Reads a text: its size, and its bytes.
    pub(crate) fn read_text(&mut self, alloc: Global) -> Result<Text, CodecFault>
        ensures { Reads text (λ text. text) self.old self.new result }
    {
        Ok(Text::of(alloc, self.read_str()?)?)
    }

    /// The same, lent.
    pub(crate) fn read_str(&mut self) -> Result<&'a str, CodecFault>
        ensures { Reads text (λ text. text.now) self.old self.new result }
    {
        let size = self.read_u64()?;
        self.read_utf8(size)
    }

    /// Reads the bytes of a text of this size.
    fn read_utf8(&mut self, size: u64) -> Result<&'a str, CodecFault>
        ensures { Reads (utf8 size) (λ text. text.now) self.old self.new result }
    {
        let rest = self.rest();
        let front = &rest[..size.min(rest.len() as u64) as usize];
        match from_utf8(front) {
            Ok(text) => {
                if (front.len() as u64) < size {
                    return Err(self.fault_at_end());
                }
                self.skip(front.len());
                Ok(text)
            }
            Err(error) => {
                let valid = error.valid_up_to();
                Err(self.fault(valid + bytes_begun(&front[valid..], size - valid as u64)))
            }
        }
    }
}
